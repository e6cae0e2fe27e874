// What an accepted request does, and settling after it.
ghost use Rattle.std.specs.Prelude.{◌≡◌, ◌+◌, ◌<◌, ◌≤◌};
ghost use Rattle.queue.specs.Queues.{room};
ghost use Rattle.matching.specs.Tables.{tables, SameTables, RoomFor, NumbersFor};
ghost use Rattle.book.specs.declared.call.Request.TheVariants.{Dark, Sdl};
ghost use Rattle.book.specs.declared.session.Session.{Session as TheSession};
ghost use Rattle.book.specs.Grounds.{facility_of};
ghost use Rattle.book.specs.Steps.{contents_in, active_sdl, valued_at, HasPlace, Acted, SettledIn, Worked};

use crate::book::Core;
use crate::call::{Request, SdlOrder};
use crate::session::Session;
use market::orders::{DarkOrder, Fill, LitOrder};
use market::quotes::Quote;
use market::reference::Reference;
use market::sizes::size_of;
use matching::active::{Active, Form, Priorities, Progress, SdlForm};
use matching::settle::{settle, sweep_dark};
use matching::sweep::sweep;
use priority::priority::Priority;
use queue::queue::Queue;

impl<R: Copy> SdlOrder<R> {
    // The price that the order is valued at, 0 for none as of any price.
    fn value_price(&self, quote: &Quote) -> u32
        ensures { result ≡ valued_at quote.now self.now }
    {
        if self.limit == 0 {
            quote.against(self.side)
        } else {
            self.limit
        }
    }

    // The order as it sweeps: no `From`, since its size class asks for the lot and the quote.
    fn activate(&self, lot: u32, quote: &Quote) -> Active<R>
        ensures { result ≡ active_sdl lot quote.now self.now }
    {
        let form = SdlForm {
            limit: self.limit,
            seek: self.seek,
            size: size_of(lot, self.quantity, self.value_price(quote)),
        };
        Active {
            member: self.member,
            reference: self.reference,
            side: self.side,
            remaining: self.quantity,
            minimum: 0,
            jitney: self.jitney,
            form: Form::Sdl(form),
        }
    }
}

// Each of these says that the lot stays: it is fixed for the day, and stands in the core whose quote and trades they change.
// The queues come one by one, and not as a struct: of a queue inside another struct a proof does not know what it leaves in
// the slice that was lent.
impl Core {
    // In Continuous a Dark order sweeps, and its remainder joins the end; else it only joins: the shares that it traded.
    fn enter<R: Reference, D: Priority, L: Priority>(
        &mut self,
        p: &Priorities<D, L>,
        session: Session,
        d: &DarkOrder<R>,
        darks: &mut Queue<DarkOrder<R>>,
        lits: &mut Queue<LitOrder<R>>,
        fills: &mut Queue<Fill<R>>,
    ) -> u32
        requires place { darks.old.len < room darks.old }
        requires room { RoomFor 1 (tables darks.old lits.old fills.old) }
        requires trades { NumbersFor 1 self.old.trades (tables darks.old lits.old fills.old) }
        ensures acted { Acted (facility_of R.Reference.number D.Priority.order L.Priority.order p.now self.old.lot) session (contents_in self.old (tables darks.old lits.old fills.old)) (Dark d.now) fills.old result 0 (contents_in self.new (tables darks.new lits.new fills.new)) fills.new }
        ensures lot { self.new.lot ≡ self.old.lot }
        ensures same { SameTables (tables darks.old lits.old fills.old) (tables darks.new lits.new fills.new) }
    {
        if !session.is_continuous() {
            darks.append(*d);
            return 0;
        }
        let quote = Quote::of(self.away, lits.orders());
        let remaining = sweep_dark(p, &quote, &mut self.trades, d, darks, lits, fills);
        d.remaining - remaining
    }

    // An SDL order sweeps: the shares that it traded, and those left of it, which are cancelled.
    fn seek<R: Reference, D: Priority, L: Priority>(
        &mut self,
        p: &Priorities<D, L>,
        o: &SdlOrder<R>,
        darks: &mut Queue<DarkOrder<R>>,
        lits: &mut Queue<LitOrder<R>>,
        fills: &mut Queue<Fill<R>>,
    ) -> (u32, u32)
        requires room { RoomFor 1 (tables darks.old lits.old fills.old) }
        requires trades { NumbersFor 1 self.old.trades (tables darks.old lits.old fills.old) }
        ensures acted { (s : TheSession) → Acted (facility_of R.Reference.number D.Priority.order L.Priority.order p.now self.old.lot) s (contents_in self.old (tables darks.old lits.old fills.old)) (Sdl o.now) fills.old result.0 result.1 (contents_in self.new (tables darks.new lits.new fills.new)) fills.new }
        ensures lot { self.new.lot ≡ self.old.lot }
        ensures same { SameTables (tables darks.old lits.old fills.old) (tables darks.new lits.new fills.new) }
    {
        let quote = Quote::of(self.away, lits.orders());
        let mut g = Progress::new(o.activate(self.lot, &quote), self.trades);
        sweep(p, &quote, &mut g, darks, lits, fills);
        self.trades = g.trades;
        let remaining = g.active.remaining;
        (o.quantity - remaining, remaining)
    }

    // What an accepted request does before settling: the shares that its order traded, and those taken away.
    pub fn act<R: Reference, D: Priority, L: Priority>(
        &mut self,
        p: &Priorities<D, L>,
        session: Session,
        request: &Request<R>,
        darks: &mut Queue<DarkOrder<R>>,
        lits: &mut Queue<LitOrder<R>>,
        fills: &mut Queue<Fill<R>>,
    ) -> (u32, u32)
        requires place { HasPlace request.now darks.old.len (room darks.old) lits.old.len (room lits.old) }
        requires room { RoomFor 1 (tables darks.old lits.old fills.old) }
        requires trades { NumbersFor 1 self.old.trades (tables darks.old lits.old fills.old) }
        ensures acted { Acted (facility_of R.Reference.number D.Priority.order L.Priority.order p.now self.old.lot) session (contents_in self.old (tables darks.old lits.old fills.old)) request.now fills.old result.0 result.1 (contents_in self.new (tables darks.new lits.new fills.new)) fills.new }
        ensures lot { self.new.lot ≡ self.old.lot }
        ensures same { SameTables (tables darks.old lits.old fills.old) (tables darks.new lits.new fills.new) }
    {
        match request {
            Request::Quote(away) => {
                self.away = *away;
                (0, 0)
            }
            Request::Dark(d) => (self.enter(p, session, d, darks, lits, fills), 0),
            Request::Sdl(o) => self.seek(p, o, darks, lits, fills),
            Request::Lit(l) => {
                lits.append(*l);
                (0, 0)
            }
            Request::Start => (0, 0),
        }
    }

    // In Continuous, Dark orders settle.
    pub fn settle<R: Reference, D: Priority, L: Priority>(
        &mut self,
        p: &Priorities<D, L>,
        session: Session,
        darks: &mut Queue<DarkOrder<R>>,
        lits: &mut Queue<LitOrder<R>>,
        fills: &mut Queue<Fill<R>>,
    )
        requires room { RoomFor 0 (tables darks.old lits.old fills.old) }
        requires trades { NumbersFor 0 self.old.trades (tables darks.old lits.old fills.old) }
        ensures settled { SettledIn (facility_of R.Reference.number D.Priority.order L.Priority.order p.now self.old.lot) session (contents_in self.old (tables darks.old lits.old fills.old)) fills.old (contents_in self.new (tables darks.new lits.new fills.new)) fills.new }
        ensures lot { self.new.lot ≡ self.old.lot }
        ensures same { SameTables (tables darks.old lits.old fills.old) (tables darks.new lits.new fills.new) }
    {
        if session.is_continuous() {
            settle(p, self.away, &mut self.trades, darks, lits, fills);
        }
    }

    // What an accepted request does in `session`, and settling in the session `after` it: the three counts of the answer.
    pub fn work<R: Reference, D: Priority, L: Priority>(
        &mut self,
        p: &Priorities<D, L>,
        session: Session,
        after: Session,
        request: &Request<R>,
        darks: &mut Queue<DarkOrder<R>>,
        lits: &mut Queue<LitOrder<R>>,
        fills: &mut Queue<Fill<R>>,
    ) -> (u32, u32, u32)
        requires place { HasPlace request.now darks.old.len (room darks.old) lits.old.len (room lits.old) }
        requires room { RoomFor 1 (tables darks.old lits.old fills.old) }
        requires trades { NumbersFor 1 self.old.trades (tables darks.old lits.old fills.old) }
        requires few { fills.old.len + darks.old.len + lits.old.len ≤ 512 }
        ensures worked { Worked (facility_of R.Reference.number D.Priority.order L.Priority.order p.now self.old.lot) session after (contents_in self.old (tables darks.old lits.old fills.old)) request.now fills.old result.1 result.2 (contents_in self.new (tables darks.new lits.new fills.new)) fills.new }
        ensures made { result.0 ≡ fills.new.len }
        ensures lot { self.new.lot ≡ self.old.lot }
        ensures same { SameTables (tables darks.old lits.old fills.old) (tables darks.new lits.new fills.new) }
    {
        let (traded, gone) = self.act(p, session, request, darks, lits, fills);
        self.settle(p, after, darks, lits, fills);
        (fills.len() as u32, traded, gone)
    }
}
