// What a queue can do.
ghost use Rattle.std.specs.Prelude.{◌≡◌, ℕ, ◌+◌, ◌<◌, ◌≤◌, [], ◌∷◌, length, slice_index_or};
ghost use Rattle.queue.specs.Queues.{queued, room, SamePlaces, Appended, without, to_end, replaced};

use super::Queue;

impl<'a, T: Copy> Queue<'a, T> {
    // The first `len` of these places, as a queue.
    pub fn new(places: &'a mut [T], len: usize) -> Queue<'a, T>
        requires { len ≤ length places.old }
        ensures places { result.places.now ≡ places.old }
        ensures len { result.len ≡ len }
        ensures lender { result.places.ghost_name ≡ places.entry.ghost_name }
    {
        Queue { places, len }
    }

    // How many are queued.
    pub fn len(&self) -> usize
        ensures { result ≡ self.now.len }
    {
        self.len
    }

    // Those queued, first to last.
    pub fn orders(&self) -> &[T]
        ensures { result.now ≡ queued self.now }
    {
        &self.places[..self.len]
    }

    // The one at `i`.
    pub fn get(&self, i: usize) -> T
        requires { i < self.now.len }
        ensures { result ≡ slice_index_or (queued self.now) i result }
    {
        self.orders()[i]
    }

    // One more, last.
    pub fn append(&mut self, x: T)
        requires { self.old.len < room self.old }
        ensures appended { Appended self.old (x ∷ []) self.new }
        ensures len { self.new.len ≡ self.old.len + 1 }
    {
        self.places[self.len] = x;
        self.len += 1;
    }

    // That a queue stands on the same places afterwards, as the last three say, relates what was to what is: no invariant of a
    // queue can say it.

    // Takes the one at `i` out; those after it move up.
    pub fn remove(&mut self, i: usize) -> T
        requires { i < self.old.len }
        ensures value { result ≡ slice_index_or (queued self.old) i result }
        ensures list { queued self.new ≡ without i (queued self.old) }
        ensures len { self.new.len + 1 ≡ self.old.len }
        ensures same { SamePlaces self.old self.new }
    {
        let x = self.places[i];
        self.places.copy_within(i + 1..self.len, i);
        self.len -= 1;
        x
    }

    // Puts the one at `i` behind all others.
    pub fn move_to_end(&mut self, i: usize)
        requires { i < self.old.len }
        ensures list { queued self.new ≡ to_end i (queued self.old) }
        ensures len { self.new.len ≡ self.old.len }
        ensures same { SamePlaces self.old self.new }
    {
        let x = self.remove(i);
        self.append(x);
    }

    // Writes `x` over the one at `i`.
    pub fn replace(&mut self, i: usize, x: T)
        requires { i < self.old.len }
        ensures list { queued self.new ≡ replaced i x (queued self.old) }
        ensures len { self.new.len ≡ self.old.len }
        ensures same { SamePlaces self.old self.new }
    {
        self.places[i] = x;
    }
}
