// The queue itself; what it can do is in the module below.
ghost use Rattle.std.specs.Prelude.{◌≤◌, length};

// The first `len` of the lent `places`; there are never more queued than places. The length stands beside the slice, since
// the places are the host's, all of them, and nothing is allocated here.
#[derive(Drop)]
pub struct Queue<'a, T> {
    places: &'a mut [T],
    len: usize,
    ghost fits: { len ≤ length places.now },
}

pub mod moves;
