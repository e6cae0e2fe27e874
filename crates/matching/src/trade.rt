// One trade of a sweep, and what it leaves.
ghost use Rattle.std.specs.Prelude.{◌≡◌, ◌+◌, ◌<◌, ◌≤◌, min, [], ◌∷◌, ◌++◌, take, drop, slice_index_or};
ghost use Rattle.queue.specs.Queues.{queued, room, SamePlaces, Appended};
ghost use Rattle.matching.specs.Sweep.{active_after, traded, fill_of, dark_left, shares_with};
ghost use Rattle.matching.specs.Settle.{not_begun};

use crate::active::{Active, Found, Progress};
use crate::resting::Resting;
use market::codes::Side;
use market::orders::{DarkOrder, Fill, Party};
use queue::queue::Queue;

impl<R: Copy> Active<R> {
    // What so many shares leave of it.
    fn after(&self, shares: u32) -> Active<R>
        requires { shares ≤ self.now.remaining }
        ensures { result ≡ active_after shares self.now }
    {
        let remaining = self.remaining - shares;
        Active {
            remaining,
            minimum: self.minimum.min(remaining),
            ..*self
        }
    }
}

impl<R: Copy> Progress<R> {
    // A sweep about to begin: it has chosen at no level yet.
    pub fn new(active: Active<R>, trades: u32) -> Progress<R>
        ensures { result ≡ not_begun trades active }
    {
        Progress {
            active,
            trades,
            dark: None,
            lit: None,
        }
    }

    // How far the sweep has come after a trade of so many shares, but for the level that it notes.
    pub fn after(&self, shares: u32) -> Progress<R>
        requires remaining { shares ≤ self.now.active.remaining }
        requires trades { self.now.trades < 1000000 }
        ensures { result ≡ traded shares self.now }
    {
        Progress {
            active: self.active.after(shares),
            trades: self.trades + 1,
            ..*self
        }
    }
}

// A trade of the active order with `order`.
fn fill_with<R: Copy, T: Resting<R>>(
    number: u32,
    g: &Progress<R>,
    order: &T,
    shares: u32,
    price: u32,
) -> Fill<R>
    ensures { result ≡ fill_of number g.now.active (T.HasParty.party order.now) shares price (T.Resting.asker g.now).kind }
{
    let own = Party {
        member: g.active.member,
        reference: g.active.reference,
    };
    let other = order.party();
    let (buyer, seller) = match g.active.side {
        Side::Buy => (own, other),
        Side::Sell => (other, own),
    };
    Fill {
        number,
        buyer,
        seller,
        shares,
        price,
        kind: T::asker(g).kind,
    }
}

// What is left of an order out of the queue joins the end.
pub fn join<R: Copy>(darks: &mut Queue<DarkOrder<R>>, d: DarkOrder<R>)
    requires { darks.old.len < room darks.old }
    ensures list { queued darks.new ≡ queued darks.old ++ dark_left d }
    ensures same { SamePlaces darks.old darks.new }
{
    if d.remaining > 0 {
        darks.append(d);
    }
}

// A trade with the resting order that was found, which is returned as it stood.
pub fn trade<R: Copy, T: Resting<R>>(
    g: &mut Progress<R>,
    queue: &mut Queue<T>,
    found: Found,
    fills: &mut Queue<Fill<R>>,
) -> T
    requires at { found.at < queue.old.len }
    requires remaining { 0 < g.old.active.remaining }
    requires trades { g.old.trades < 1000000 }
    requires room { fills.old.len < room fills.old }
    ensures order { result ≡ slice_index_or (queued queue.old) found.at result }
    ensures progress { g.new ≡ T.Resting.progress (shares_with g.old (T.Resting.remaining result)) found.price g.old }
    ensures list { queued queue.new ≡ T.Resting.back (take found.at (queued queue.old)) (T.Resting.after (shares_with g.old (T.Resting.remaining result)) result) (drop (found.at + 1) (queued queue.old)) }
    ensures fills { Appended fills.old (fill_of (g.old.trades + 1) g.old.active (T.HasParty.party result) (shares_with g.old (T.Resting.remaining result)) found.price (T.Resting.asker g.old).kind ∷ []) fills.new }
    ensures more { fills.new.len ≡ fills.old.len + 1 }
    ensures spends { queue.new.len + min 1 g.new.active.remaining ≤ queue.old.len }
    ensures same { SamePlaces queue.old queue.new }
{
    let order = queue.get(found.at);
    let shares = g.active.remaining.min(order.remaining());
    fills.append(fill_with(g.trades + 1, g, &order, shares, found.price));
    order.after(shares).put_back(queue, found.at);
    *g = T::progress(g, shares, found.price);
    order
}
