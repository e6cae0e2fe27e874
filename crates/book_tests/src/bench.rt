// A book with the facility's priorities and the memory that it is lent, and what tests ask of it.
use crate::entries::member_of;
use book::book::Book;
use book::call::{Call, DarkEntry, LitEntry, SdlEntry};
use book::memory::Memory;
use market::ground::Ground;
use market::orders::{DarkOrder, Fill, LitOrder};
use market::quotes::Away;
use matching::active::Priorities;
use priority::priority::{EnoughSize, OwnMember, Pile};
use std::process::Abort;
use std::test::Fail;

pub type FacilityBook = Book<Pile<OwnMember, EnoughSize>, OwnMember>;

// What a call answers: its three counts, or the number of the ground that refuses it.
pub type Answer = Result<(u32, u32, u32), u32>;

pub fn done(fills: u32, traded: u32, cancelled: u32) -> Answer {
    Ok((fills, traded, cancelled))
}

// A trade: its number in the day, the references of buyer and seller, and the kind's number, as members see it.
#[derive(Clone, Copy, PartialEq, Eq, Debug)]
pub struct Trade {
    pub number: u32,
    pub buyer: u32,
    pub seller: u32,
    pub shares: u32,
    pub price: u32,
    pub kind: u32,
}

fn trade_of(kind: u32, number: u32, buyer: u32, seller: u32, shares: u32, price: u32) -> Trade {
    Trade {
        number,
        buyer,
        seller,
        shares,
        price,
        kind,
    }
}

pub fn sdl_dark(number: u32, buyer: u32, seller: u32, shares: u32, price: u32) -> Trade {
    trade_of(1, number, buyer, seller, shares, price)
}

pub fn sdl_lit(number: u32, buyer: u32, seller: u32, shares: u32, price: u32) -> Trade {
    trade_of(2, number, buyer, seller, shares, price)
}

pub fn dark_dark(number: u32, buyer: u32, seller: u32, shares: u32, price: u32) -> Trade {
    trade_of(3, number, buyer, seller, shares, price)
}

// What a test sees of a resting order: a Dark order's minimum or a lit order's price is its `term`.
#[derive(Clone, Copy, PartialEq, Eq, Debug)]
pub struct Resting {
    pub reference: u32,
    pub remaining: u32,
    pub term: u32,
}

pub fn rests(reference: u32, remaining: u32, term: u32) -> Resting {
    Resting {
        reference,
        remaining,
        term,
    }
}

// What a refused call must leave as it was.
#[derive(Clone, Copy, PartialEq, Eq, Debug)]
pub struct State {
    pub is_continuous: bool,
    pub bid: u32,
    pub offer: u32,
    pub trades: u32,
    pub darks: usize,
    pub lits: usize,
    pub first_dark: Resting,
    pub first_lit: Resting,
    pub first_fill: Trade,
}

// What a story looks at.
#[derive(Clone, Copy, PartialEq, Eq, Debug)]
pub enum Sight {
    Answer(Answer),
    State(State),
    Count(usize),
    Fill(Option<Trade>),
    Dark(Option<Resting>),
    Lit(Option<Resting>),
}

// Something seen that should be otherwise, after so many calls.
#[derive(Clone, Copy)]
pub struct Surprise {
    pub calls: u32,
    pub seen: Sight,
    pub wanted: Sight,
}

#[derive(Drop)]
pub struct Bench {
    pub book: FacilityBook,
    pub dark: [DarkOrder<u32>; 256],
    pub lit: [LitOrder<u32>; 256],
    pub fills: [Fill<u32>; 513],
    // the fills of the latest call, the calls so far, and the first surprise
    made: u32,
    calls: u32,
    surprise: Option<Surprise>,
}

pub fn facility() -> Priorities<Pile<OwnMember, EnoughSize>, OwnMember> {
    Priorities {
        dark: Pile {
            upper: OwnMember,
            lower: EnoughSize,
        },
        lit: OwnMember,
    }
}

// The reference of a party, or 0, which is no reference, where it stands beside another member than its own.
fn named(member: u32, reference: u32) -> u32 {
    if member == member_of(reference) {
        reference
    } else {
        0
    }
}

impl From<&DarkOrder<u32>> for Resting {
    fn from(d: &DarkOrder<u32>) -> Resting {
        rests(named(d.member, d.reference), d.remaining, d.minimum)
    }
}

impl From<&LitOrder<u32>> for Resting {
    fn from(l: &LitOrder<u32>) -> Resting {
        rests(named(l.member, l.reference), l.remaining, l.price)
    }
}

impl From<&Fill<u32>> for Trade {
    fn from(f: &Fill<u32>) -> Trade {
        let buyer = named(f.buyer.member, f.buyer.reference);
        let seller = named(f.seller.member, f.seller.reference);
        trade_of(f.kind.number(), f.number, buyer, seller, f.shares, f.price)
    }
}

impl Bench {
    pub fn of_lot(lot: u32) -> Result<Bench, Fail> {
        let book = Book::new(lot, facility()).map_err(|_| Fail::new("no book of this lot"))?;
        Ok(Bench {
            book,
            dark: [DarkOrder::default(); 256],
            lit: [LitOrder::default(); 256],
            fills: [Fill::default(); 513],
            made: 0,
            calls: 0,
            surprise: None,
        })
    }

    // A book of lot 100 in Pre-Open, under a quote of the other markets.
    pub fn pre_open(bid: u32, offer: u32) -> Result<Bench, Fail> {
        let mut b = Bench::of_lot(100)?;
        b.quote(bid, offer, done(0, 0, 0));
        Ok(b)
    }

    // The same in Continuous.
    pub fn open(bid: u32, offer: u32) -> Result<Bench, Fail> {
        let mut b = Bench::pre_open(bid, offer)?;
        b.start(done(0, 0, 0));
        Ok(b)
    }

    // The first surprise of the story, if there was one.
    pub fn verdict(&self, rt: &impl Abort) -> Result<(), Fail> {
        if let Some(s) = self.surprise {
            let calls = s.calls;
            assert_eq!(rt; s.seen, s.wanted, "after {calls} calls");
        }
        Ok(())
    }

    fn expect(&mut self, seen: Sight, wanted: Sight) {
        if self.surprise.is_none() && seen != wanted {
            self.surprise = Some(Surprise {
                calls: self.calls,
                seen,
                wanted,
            });
        }
    }

    // A call, and what it is to answer.
    pub fn apply(&mut self, call: &Call<u32>, wanted: Answer) {
        let mut memory = Memory {
            dark: &mut self.dark,
            lit: &mut self.lit,
            fills: &mut self.fills,
        };
        let answer = self.book.apply(&mut memory, call).map_err(Ground::number);
        self.made = match answer {
            Ok((fills, _, _)) => fills,
            Err(_) => 0,
        };
        self.calls = self.calls.saturating_add(1);
        self.expect(Sight::Answer(answer), Sight::Answer(wanted));
    }

    // From here on, the names that stories are told in, each a line or two over what it says.

    pub fn quote(&mut self, bid: u32, offer: u32, wanted: Answer) {
        self.apply(&Call::Quote(Away { bid, offer }), wanted);
    }

    pub fn dark(&mut self, entry: DarkEntry<u32>, wanted: Answer) {
        self.apply(&Call::Dark(entry), wanted);
    }

    pub fn sdl(&mut self, entry: SdlEntry<u32>, wanted: Answer) {
        self.apply(&Call::Sdl(entry), wanted);
    }

    pub fn lit(&mut self, entry: LitEntry<u32>, wanted: Answer) {
        self.apply(&Call::Lit(entry), wanted);
    }

    pub fn start(&mut self, wanted: Answer) {
        self.apply(&Call::Start, wanted);
    }

    // Enters a Dark order that is to rest untraded.
    pub fn place_dark(&mut self, entry: DarkEntry<u32>) {
        self.dark(entry, done(0, 0, 0));
    }

    // Enters a lit order while no Dark orders can settle.
    pub fn place_lit(&mut self, entry: LitEntry<u32>) {
        self.lit(entry, done(0, 0, 0));
    }

    // The nth fill that the list holds.
    pub fn fill(&self, n: usize) -> Option<Trade> {
        self.fills.get(n).map(Trade::from)
    }

    // The nth resting Dark order.
    pub fn resting_dark(&self, n: usize) -> Option<Resting> {
        self.dark[..self.book.resting_darks()]
            .get(n)
            .map(Resting::from)
    }

    // The nth resting lit order.
    pub fn resting_lit(&self, n: usize) -> Option<Resting> {
        self.lit[..self.book.resting_lits()]
            .get(n)
            .map(Resting::from)
    }

    pub fn fill_is(&mut self, n: usize, trade: Trade) {
        let seen = self.fill(n);
        self.expect(Sight::Fill(seen), Sight::Fill(Some(trade)));
    }

    pub fn dark_is(&mut self, n: usize, order: Resting) {
        let seen = self.resting_dark(n);
        self.expect(Sight::Dark(seen), Sight::Dark(Some(order)));
    }

    pub fn lit_is(&mut self, n: usize, order: Resting) {
        let seen = self.resting_lit(n);
        self.expect(Sight::Lit(seen), Sight::Lit(Some(order)));
    }

    // So many are seen, and the nth `is` the nth that is wanted.
    fn all_are<T: Copy, F: Fn(&mut Bench, usize, T)>(&mut self, seen: usize, wanted: &[T], is: F)
        requires { F.IsAlwaysCallable is }
    {
        self.expect(Sight::Count(seen), Sight::Count(wanted.len()));
        for (i, x) in wanted.iter().enumerate() {
            is(self, i, *x);
        }
    }

    // The latest call made these fills and no other.
    pub fn fills_are(&mut self, trades: &[Trade]) {
        let seen = self.made as usize;
        self.all_are(seen, trades, Bench::fill_is);
    }

    // These Dark orders rest, in this order.
    pub fn darks_are(&mut self, orders: &[Resting]) {
        let seen = self.book.resting_darks();
        self.all_are(seen, orders, Bench::dark_is);
    }

    // These lit orders rest, in this order.
    pub fn lits_are(&mut self, orders: &[Resting]) {
        let seen = self.book.resting_lits();
        self.all_are(seen, orders, Bench::lit_is);
    }

    // So many trades were made in the day.
    pub fn trades_are(&mut self, count: usize) {
        let trades = self.book.trades() as usize;
        self.expect(Sight::Count(trades), Sight::Count(count));
    }

    fn state(&self) -> State {
        let away = self.book.away();
        State {
            is_continuous: self.book.session().is_continuous(),
            bid: away.bid,
            offer: away.offer,
            trades: self.book.trades(),
            darks: self.book.resting_darks(),
            lits: self.book.resting_lits(),
            first_dark: Resting::from(&self.dark[0]),
            first_lit: Resting::from(&self.lit[0]),
            first_fill: Trade::from(&self.fills[0]),
        }
    }

    // The call is refused on this ground, and changes nothing.
    pub fn refuses(&mut self, call: &Call<u32>, ground: u32) {
        let before = self.state();
        self.apply(call, Err(ground));
        let after = self.state();
        self.expect(Sight::State(after), Sight::State(before));
    }

    pub fn refuses_quote(&mut self, bid: u32, offer: u32, ground: u32) {
        self.refuses(&Call::Quote(Away { bid, offer }), ground);
    }

    pub fn refuses_dark(&mut self, entry: DarkEntry<u32>, ground: u32) {
        self.refuses(&Call::Dark(entry), ground);
    }

    pub fn refuses_sdl(&mut self, entry: SdlEntry<u32>, ground: u32) {
        self.refuses(&Call::Sdl(entry), ground);
    }

    pub fn refuses_lit(&mut self, entry: LitEntry<u32>, ground: u32) {
        self.refuses(&Call::Lit(entry), ground);
    }

    pub fn refuses_start(&mut self, ground: u32) {
        self.refuses(&Call::Start, ground);
    }
}
