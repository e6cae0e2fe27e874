// The sweep: the active order trades with its choice until nothing remains or nobody may be met.
ghost use Rattle.std.specs.Prelude.{◌≡◌};
ghost use Rattle.queue.specs.Queues.{queued};
ghost use Rattle.matching.specs.Sweep.{orderings_of, run_of, dark_terms as terms_with_lits, next_of, choice, Finds, Sweeps};
ghost use Rattle.matching.specs.Tables.{tables, SameTables, RoomFor, NumbersFor};

use crate::active::{Active, DarkTerms, Found, LitTerms, Met, Priorities, Progress};
use crate::choose::choose;
use crate::resting::Resting;
use crate::trade::trade;
use market::codes::Side;
use market::orders::{DarkOrder, Fill, LitOrder};
use market::prices::is_better;
use market::quotes::{Quote, nearest};
use priority::priority::Priority;
use queue::queue::Queue;

// The better price, and at one price lit before Dark.
fn nearer(side: Side, lit: Option<Found>, dark: Option<Found>) -> Option<Met>
    ensures { result ≡ next_of side lit dark }
{
    match (lit, dark) {
        (Some(l), Some(d)) if is_better(side, d.price, l.price) => Some(Met::Dark(d)),
        (Some(l), _) => Some(Met::Lit(l)),
        (None, dark) => dark.map(Met::Dark),
    }
}

// The terms on which an active order meets Dark orders under this quote.
pub fn dark_terms<R: Copy>(
    quote: &Quote,
    active: &Active<R>,
    lits: &Queue<LitOrder<R>>,
) -> DarkTerms<R>
    ensures { result ≡ terms_with_lits quote.now active.now (queued lits.now) }
{
    DarkTerms {
        quote: *quote,
        active: *active,
        lit: nearest(active.side, lits.orders()),
    }
}

// Whom the active order meets next.
fn next<R: Copy, D: Priority, L: Priority>(
    p: &Priorities<D, L>,
    quote: &Quote,
    g: &Progress<R>,
    darks: &Queue<DarkOrder<R>>,
    lits: &Queue<LitOrder<R>>,
) -> Option<Met>
    ensures { Finds quote.now (queued darks.now) (queued lits.now) result (choice (orderings_of D.Priority.order L.Priority.order p.now) quote.now (record { progress = g.now; darks = queued darks.now; lits = queued lits.now })) }
{
    let lit_terms = LitTerms {
        quote: *quote,
        active: g.active,
    };
    let dark_terms = dark_terms(quote, &g.active, lits);
    let lit = choose(lits.orders(), &lit_terms, &LitOrder::asker(g), &p.lit);
    let dark = choose(darks.orders(), &dark_terms, &DarkOrder::asker(g), &p.dark);
    nearer(g.active.side, lit, dark)
}

// Trades until nothing remains or nobody may be met. The queues come one by one, here and above, and not as a struct: of a
// queue inside another struct a proof does not know what it leaves in the slice that was lent.
pub fn sweep<R: Copy, D: Priority, L: Priority>(
    p: &Priorities<D, L>,
    quote: &Quote,
    g: &mut Progress<R>,
    darks: &mut Queue<DarkOrder<R>>,
    lits: &mut Queue<LitOrder<R>>,
    fills: &mut Queue<Fill<R>>,
)
    requires room { RoomFor 1 (tables darks.old lits.old fills.old) }
    requires trades { NumbersFor 1 g.old.trades (tables darks.old lits.old fills.old) }
    ensures sweeps { Sweeps (orderings_of D.Priority.order L.Priority.order p.now) quote.now (run_of g.old (tables darks.old lits.old fills.old)) fills.old (run_of g.new (tables darks.new lits.new fills.new)) fills.new }
    ensures same { SameTables (tables darks.old lits.old fills.old) (tables darks.new lits.new fills.new) }
{
    while g.active.remaining > 0 {
        match next(p, quote, g, darks, lits) {
            None => return,
            Some(Met::Dark(found)) => {
                let _ = trade(g, darks, found, fills);
            }
            Some(Met::Lit(found)) => {
                let _ = trade(g, lits, found, fills);
            }
        }
    }
}
