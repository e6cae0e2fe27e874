// What a trade does with a resting order of either table.
ghost use Rattle.std.specs.Prelude.{◌≡◌, ℕ, ◌+◌, ◌-◌, ◌<◌, ◌≤◌, min, List, take, drop};
ghost use Rattle.std.proofs.Common.{rules};
ghost use Rattle.queue.specs.Queues.{queued, SamePlaces};
ghost use Rattle.matching.specs.declared.active.Progress.{Progress as TheProgress};
ghost use Rattle.matching.specs.declared.choose.Asker.{Asker as TheAsker};
ghost use Rattle.matching.specs.Sweep.{asks_darks, asks_lits, dark_after, lit_after, dark_back, lit_back, dark_progress, lit_progress};

use crate::active::{Form, Progress};
use crate::choose::{Asker, Offer};
use market::codes::Kind;
use market::orders::{DarkOrder, HasParty, LitOrder};
use queue::queue::Queue;

// A resting order in a trade. Its table says how the active order asks there, where what is left of a resting order
// goes, and which level the sweep notes.
pub trait Resting<R>: Offer + HasParty<R> + Copy {
    ghost asker: { TheProgress R → TheAsker R };

    ghost remaining: { Self → ℕ };

    // what so many shares leave of it
    ghost after: { ℕ → Self → Self };

    // the queue with what is left of it, which stood between these
    ghost back: { List Self → Self → List Self → List Self };

    // how far the sweep has come after so many shares at this price
    ghost progress: { ℕ → ℕ → TheProgress R → TheProgress R };

    fn asker(g: &Progress<R>) -> Asker<R>
        ensures { result ≡ asker g.now };

    fn remaining(&self) -> u32
        ensures { result ≡ remaining self.now };

    fn after(&self, shares: u32) -> Self
        requires { shares ≤ remaining self.now }
        ensures { result ≡ after shares self.now };

    // What is left of the order at `at` goes back into its queue; a spent one leaves.
    fn put_back(self, queue: &mut Queue<Self>, at: usize)
        requires { at < queue.old.len }
        ensures list { queued queue.new ≡ back (take at (queued queue.old)) self (drop (at + 1) (queued queue.old)) }
        ensures len { queue.new.len + 1 ≡ queue.old.len + min 1 (remaining self) }
        ensures same { SamePlaces queue.old queue.new };

    fn progress(g: &Progress<R>, shares: u32, price: u32) -> Progress<R>
        requires remaining { shares ≤ g.now.active.remaining }
        requires trades { g.now.trades < 1000000 }
        ensures { result ≡ progress shares price g.now };

    // a trade takes its shares from both
    ghost leaves: { (n : ℕ) (x : Self) → remaining (after n x) ≡ remaining x - n };

    ghost spends: { (n p : ℕ) (g : TheProgress R) → (progress n p g).active.remaining ≡ g.active.remaining - n };
}

// What is left of a Dark order goes to the end.
impl<R: Copy> Resting<R> for DarkOrder<R> {
    ghost asker = { asks_darks };

    ghost remaining = { λ d. d.remaining };

    ghost after = { dark_after };

    ghost back = { dark_back };

    ghost progress = { dark_progress };

    ghost leaves = { Prim.search rules };

    ghost spends = { Prim.search rules };

    fn asker(g: &Progress<R>) -> Asker<R> {
        let kind = match g.active.form {
            Form::Sdl(_) => Kind::SdlDark,
            Form::Dark(_) => Kind::DarkDark,
        };
        Asker {
            active: g.active,
            kind,
            last: g.dark,
        }
    }

    fn remaining(&self) -> u32 {
        self.remaining
    }

    fn after(&self, shares: u32) -> DarkOrder<R> {
        let remaining = self.remaining - shares;
        DarkOrder {
            remaining,
            minimum: self.minimum.min(remaining),
            ..*self
        }
    }

    fn put_back(self, queue: &mut Queue<DarkOrder<R>>, at: usize) {
        if self.remaining > 0 {
            queue.replace(at, self);
            queue.move_to_end(at);
        } else {
            let _ = queue.remove(at);
        }
    }

    fn progress(g: &Progress<R>, shares: u32, price: u32) -> Progress<R> {
        Progress {
            dark: Some(Self::asker(g).level(price)),
            ..g.after(shares)
        }
    }
}

// What is left of a lit order keeps its place.
impl<R: Copy> Resting<R> for LitOrder<R> {
    ghost asker = { asks_lits };

    ghost remaining = { λ l. l.remaining };

    ghost after = { lit_after };

    ghost back = { lit_back };

    ghost progress = { lit_progress };

    ghost leaves = { Prim.search rules };

    ghost spends = { Prim.search rules };

    fn asker(g: &Progress<R>) -> Asker<R> {
        Asker {
            active: g.active,
            kind: Kind::SdlLit,
            last: g.lit,
        }
    }

    fn remaining(&self) -> u32 {
        self.remaining
    }

    fn after(&self, shares: u32) -> LitOrder<R> {
        LitOrder {
            remaining: self.remaining - shares,
            ..*self
        }
    }

    fn put_back(self, queue: &mut Queue<LitOrder<R>>, at: usize) {
        if self.remaining > 0 {
            queue.replace(at, self);
        } else {
            let _ = queue.remove(at);
        }
    }

    fn progress(g: &Progress<R>, shares: u32, price: u32) -> Progress<R> {
        Progress {
            lit: Some(Self::asker(g).level(price)),
            ..g.after(shares)
        }
    }
}
