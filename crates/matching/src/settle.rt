// A Dark order that sweeps, and settling.
ghost use Rattle.std.specs.Prelude.{◌≡◌, ◌<◌};
ghost use Rattle.queue.specs.Queues.{queued, room};
ghost use Rattle.matching.specs.Sweep.{orderings_of};
ghost use Rattle.matching.specs.Settle.{contents_of, active_dark, dark_kept, can_trade, first_to_trade, Place, SweptDark, Settled};
ghost use Rattle.matching.specs.Tables.{tables, SameTables, RoomFor, NumbersFor};

use crate::active::{Active, DarkForm, Form, Priorities, Progress};
use crate::meets::meets_dark_order;
use crate::sweep::{dark_terms, sweep};
use crate::trade::join;
use market::orders::{DarkOrder, Fill, LitOrder};
use market::quotes::{Away, Quote};
use priority::priority::Priority;
use queue::queue::Queue;

// A Dark order as it sweeps.
impl<R: Copy> From<&DarkOrder<R>> for Active<R> {
    ghost from_gives = { λ d a. a ≡ active_dark d.now };

    fn from(d: &DarkOrder<R>) -> Active<R> {
        let form = DarkForm {
            peg: d.peg,
            cap: d.cap,
            contra: d.contra,
            key: d.key,
        };
        Active {
            member: d.member,
            reference: d.reference,
            side: d.side,
            remaining: d.remaining,
            minimum: d.minimum,
            jitney: d.jitney,
            form: Form::Dark(form),
        }
    }
}

// What a Dark order that swept leaves to rest.
fn keep<R: Copy>(d: &DarkOrder<R>, a: &Active<R>) -> DarkOrder<R>
    ensures { result ≡ dark_kept d.now a.now }
{
    DarkOrder {
        remaining: a.remaining,
        minimum: a.minimum,
        ..*d
    }
}

// Whether a Dark order may meet another.
#[tactic(auto, unfolding(crate::specs::Settle::can_trade))]
fn may_trade<R: Copy>(
    quote: &Quote,
    darks: &Queue<DarkOrder<R>>,
    lits: &Queue<LitOrder<R>>,
    d: &DarkOrder<R>,
) -> bool
    ensures { result ≡ can_trade quote.now (queued lits.now) (queued darks.now) d.now }
{
    let terms = dark_terms(quote, &Active::from(d), lits);
    darks
        .orders()
        .iter()
        .any(|other| meets_dark_order(&terms, other))
}

// The first Dark order in the queue that may meet another.
fn find_trader<R: Copy>(
    quote: &Quote,
    darks: &Queue<DarkOrder<R>>,
    lits: &Queue<LitOrder<R>>,
) -> Option<usize>
    ensures { Place (queued darks.now) result (first_to_trade quote.now (queued lits.now) (queued darks.now)) }
{
    darks
        .orders()
        .iter()
        .position(|d| may_trade(quote, darks, lits, d))
}

// The queues come one by one, as in a sweep.

// A Dark order out of the queue sweeps, and what remains of it joins the end: how much that is.
pub fn sweep_dark<R: Copy, D: Priority, L: Priority>(
    p: &Priorities<D, L>,
    quote: &Quote,
    trades: &mut u32,
    d: &DarkOrder<R>,
    darks: &mut Queue<DarkOrder<R>>,
    lits: &mut Queue<LitOrder<R>>,
    fills: &mut Queue<Fill<R>>,
) -> u32
    requires place { darks.old.len < room darks.old }
    requires room { RoomFor 1 (tables darks.old lits.old fills.old) }
    requires trades { NumbersFor 1 trades.old (tables darks.old lits.old fills.old) }
    ensures swept { SweptDark (orderings_of D.Priority.order L.Priority.order p.now) quote.now quote.now.away trades.old d.now (queued darks.old) (queued lits.old) fills.old result (contents_of quote.now.away trades.new (tables darks.new lits.new fills.new)) fills.new }
    ensures same { SameTables (tables darks.old lits.old fills.old) (tables darks.new lits.new fills.new) }
{
    let mut g = Progress::new(Active::from(d), *trades);
    sweep(p, quote, &mut g, darks, lits, fills);
    *trades = g.trades;
    join(darks, keep(d, &g.active));
    g.active.remaining
}

// The first Dark order that may meet another sweeps, until none can.
pub fn settle<R: Copy, D: Priority, L: Priority>(
    p: &Priorities<D, L>,
    away: Away,
    trades: &mut u32,
    darks: &mut Queue<DarkOrder<R>>,
    lits: &mut Queue<LitOrder<R>>,
    fills: &mut Queue<Fill<R>>,
)
    requires room { RoomFor 0 (tables darks.old lits.old fills.old) }
    requires trades { NumbersFor 0 trades.old (tables darks.old lits.old fills.old) }
    ensures settled { Settled (orderings_of D.Priority.order L.Priority.order p.now) (contents_of away trades.old (tables darks.old lits.old fills.old)) fills.old (contents_of away trades.new (tables darks.new lits.new fills.new)) fills.new }
    ensures same { SameTables (tables darks.old lits.old fills.old) (tables darks.new lits.new fills.new) }
{
    loop {
        let quote = Quote::of(away, lits.orders());
        let Some(at) = find_trader(&quote, darks, lits) else {
            return;
        };
        let d = darks.remove(at);
        let _ = sweep_dark(p, &quote, trades, &d, darks, lits, fills);
    }
}
