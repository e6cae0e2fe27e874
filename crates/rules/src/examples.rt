// The six worked examples, as calls on a new book.
ghost use Rattle.std.specs.Prelude.{◌≡◌, Some};
ghost use Rattle.std.specs.Result.{result_ok};
ghost use Rattle.rules.specs.Examples.{worked, example_number, example_of, no_such_example, setup_of};

use book::call::{Call, DarkEntry, LitEntry, SdlEntry};
use market::codes::{Contra, Peg, Seek, Side};
use market::quotes::Away;
use std::error::Error;
use std::fmt;

#[derive(Clone, Copy, PartialEq, Eq)]
pub enum Example {
    LargeSdl = 1,
    SmallSdl = 2,
    SmallSdlBestHere = 3,
    Caps = 4,
    EnoughSizeFirst = 5,
    DarkWithDark = 6,
}

// What was asked for is none of the six.
#[derive(Clone, Copy, Debug, PartialEq, Eq)]
pub struct NoSuchExample;

impl fmt::Display for NoSuchExample {
    ghost output = { λ _. Some no_such_example };

    fn fmt<W: fmt::Write>(&self, f: &mut fmt::Formatter<W>) -> fmt::Result {
        write!(f, "no such example")
    }
}

impl Error for NoSuchExample {}

// The example that a digit, as text, stands for.
impl TryFrom<u8> for Example {
    type Error = NoSuchExample;

    ghost try_from_gives = { λ digit r. result_ok r ≡ example_of digit };

    fn try_from(digit: u8) -> Result<Example, NoSuchExample> {
        match digit {
            b'1' => Ok(Example::LargeSdl),
            b'2' => Ok(Example::SmallSdl),
            b'3' => Ok(Example::SmallSdlBestHere),
            b'4' => Ok(Example::Caps),
            b'5' => Ok(Example::EnoughSizeFirst),
            b'6' => Ok(Example::DarkWithDark),
            _ => Err(NoSuchExample),
        }
    }
}

impl Example {
    pub fn number(self) -> u32
        ensures { result ≡ example_number self }
    {
        self as u32
    }

    // The calls that bring about the example's book, none of which trades.
    pub fn setup(self) -> &'static [Call<u32>]
        ensures { result.now ≡ setup_of (worked self) }
    {
        match self {
            Example::LargeSdl => &LARGE_SDL,
            Example::SmallSdl => &SMALL_SDL,
            Example::SmallSdlBestHere => &SMALL_SDL_BEST_HERE,
            Example::Caps => &CAPS,
            Example::EnoughSizeFirst => &ENOUGH_SIZE_FIRST,
            Example::DarkWithDark => &DARK_WITH_DARK,
        }
    }

    // The call that trades.
    pub fn last(self) -> Call<u32>
        ensures { result ≡ (worked self).call }
    {
        match self {
            Example::LargeSdl => Call::Sdl(SdlEntry {
                reference: 201,
                quantity: 6000,
                limit: 10004,
                ..SDL_SELL
            }),
            Example::SmallSdl => Call::Sdl(SdlEntry {
                reference: 202,
                quantity: 2000,
                limit: 1820,
                ..SDL_SELL
            }),
            Example::SmallSdlBestHere => Call::Sdl(SdlEntry {
                reference: 203,
                quantity: 2000,
                limit: 1820,
                ..SDL_SELL
            }),
            Example::Caps => Call::Sdl(SdlEntry {
                reference: 204,
                quantity: 6000,
                ..SDL_SELL
            }),
            Example::EnoughSizeFirst => Call::Sdl(SdlEntry {
                reference: 205,
                quantity: 6000,
                ..SDL_SELL
            }),
            Example::DarkWithDark => Call::Dark(DarkEntry {
                member: DEALER_A,
                reference: 9,
                quantity: 10000,
                side: SELL,
                ..DARK_BUY
            }),
        }
    }
}

// The dealers are members 1, 2 and 3.
const DEALER_A: u32 = 1;

const DEALER_B: u32 = 2;

const DEALER_C: u32 = 3;

// Codes, as members send them.
const BUY: u32 = Side::Buy as u32;

const SELL: u32 = Side::Sell as u32;

const MIDPOINT: u32 = Peg::Midpoint as u32;

const TOUCH: u32 = Peg::Touch as u32;

const SDL_ONLY: u32 = Contra::Sdl as u32;

const DARK_ONLY: u32 = Contra::Dark as u32;

const ALL: u32 = Contra::All as u32;

const DARK_AND_LIT: u32 = Seek::DarkAndLit as u32;

// What most entries of a kind have in common; every use gives its own reference and quantity.
const DARK_BUY: DarkEntry<u32> = DarkEntry {
    member: DEALER_A,
    reference: 0,
    side: BUY,
    quantity: 0,
    peg: MIDPOINT,
    cap: 0,
    contra: ALL,
    minimum: 0,
    jitney: 0,
    key: 0,
};

const LIT_BUY: LitEntry<u32> = LitEntry {
    member: DEALER_A,
    reference: 0,
    side: BUY,
    quantity: 0,
    price: 0,
    jitney: 0,
};

const SDL_SELL: SdlEntry<u32> = SdlEntry {
    member: DEALER_B,
    reference: 0,
    side: SELL,
    quantity: 0,
    limit: 0,
    seek: DARK_AND_LIT,
    jitney: 0,
};

// Prices count quarter cents. Dark orders are entered in the order of their queue, lit orders in the order of time.
static LARGE_SDL: [Call<u32>; 7] = [
    Call::Quote(Away {
        bid: 10008,
        offer: 10020,
    }),
    Call::Start,
    Call::Dark(DarkEntry {
        member: DEALER_A,
        reference: 1,
        quantity: 1200,
        peg: TOUCH,
        contra: SDL_ONLY,
        ..DARK_BUY
    }),
    Call::Dark(DarkEntry {
        member: DEALER_A,
        reference: 2,
        quantity: 500,
        ..DARK_BUY
    }),
    Call::Dark(DarkEntry {
        member: DEALER_B,
        reference: 3,
        quantity: 1500,
        ..DARK_BUY
    }),
    Call::Lit(LitEntry {
        member: DEALER_B,
        reference: 101,
        quantity: 1200,
        price: 10008,
        ..LIT_BUY
    }),
    Call::Lit(LitEntry {
        member: DEALER_B,
        reference: 102,
        quantity: 600,
        price: 10004,
        ..LIT_BUY
    }),
];

// The second and the third example differ in the other markets' bid alone: these are the orders of both.
const MIDPOINT_500: Call<u32> = Call::Dark(DarkEntry {
    member: DEALER_B,
    reference: 1,
    quantity: 500,
    ..DARK_BUY
});

const TOUCH_400: Call<u32> = Call::Dark(DarkEntry {
    member: DEALER_A,
    reference: 2,
    quantity: 400,
    peg: TOUCH,
    contra: SDL_ONLY,
    ..DARK_BUY
});

const LIT_200: Call<u32> = Call::Lit(LitEntry {
    member: DEALER_A,
    reference: 101,
    quantity: 200,
    price: 1824,
    ..LIT_BUY
});

const LIT_600: Call<u32> = Call::Lit(LitEntry {
    member: DEALER_B,
    reference: 102,
    quantity: 600,
    price: 1820,
    ..LIT_BUY
});

static SMALL_SDL: [Call<u32>; 6] = [
    Call::Quote(Away {
        bid: 1824,
        offer: 1832,
    }),
    Call::Start,
    MIDPOINT_500,
    TOUCH_400,
    LIT_200,
    LIT_600,
];

static SMALL_SDL_BEST_HERE: [Call<u32>; 6] = [
    Call::Quote(Away {
        bid: 1820,
        offer: 1832,
    }),
    Call::Start,
    MIDPOINT_500,
    TOUCH_400,
    LIT_200,
    LIT_600,
];

static CAPS: [Call<u32>; 5] = [
    Call::Quote(Away {
        bid: 3992,
        offer: 4004,
    }),
    Call::Start,
    Call::Dark(DarkEntry {
        member: DEALER_A,
        reference: 1,
        quantity: 500,
        cap: 4000,
        ..DARK_BUY
    }),
    Call::Dark(DarkEntry {
        member: DEALER_B,
        reference: 2,
        quantity: 1500,
        cap: 3996,
        ..DARK_BUY
    }),
    Call::Dark(DarkEntry {
        member: DEALER_A,
        reference: 3,
        quantity: 1200,
        peg: TOUCH,
        contra: SDL_ONLY,
        cap: 3988,
        ..DARK_BUY
    }),
];

static ENOUGH_SIZE_FIRST: [Call<u32>; 6] = [
    Call::Quote(Away {
        bid: 7064,
        offer: 7068,
    }),
    Call::Start,
    Call::Dark(DarkEntry {
        member: DEALER_B,
        reference: 1,
        quantity: 1000,
        ..DARK_BUY
    }),
    Call::Dark(DarkEntry {
        member: DEALER_A,
        reference: 2,
        quantity: 1000,
        peg: TOUCH,
        contra: SDL_ONLY,
        ..DARK_BUY
    }),
    Call::Dark(DarkEntry {
        member: DEALER_A,
        reference: 3,
        quantity: 5000,
        peg: TOUCH,
        ..DARK_BUY
    }),
    Call::Lit(LitEntry {
        member: DEALER_C,
        reference: 101,
        quantity: 500,
        price: 7064,
        ..LIT_BUY
    }),
];

static DARK_WITH_DARK: [Call<u32>; 11] = [
    Call::Quote(Away {
        bid: 2416,
        offer: 2428,
    }),
    Call::Start,
    Call::Dark(DarkEntry {
        member: DEALER_B,
        reference: 1,
        quantity: 5000,
        ..DARK_BUY
    }),
    Call::Dark(DarkEntry {
        member: DEALER_A,
        reference: 8,
        quantity: 4000,
        peg: TOUCH,
        contra: SDL_ONLY,
        ..DARK_BUY
    }),
    Call::Dark(DarkEntry {
        member: DEALER_A,
        reference: 2,
        quantity: 6000,
        contra: SDL_ONLY,
        ..DARK_BUY
    }),
    Call::Dark(DarkEntry {
        member: DEALER_A,
        reference: 3,
        quantity: 6000,
        cap: 2420,
        ..DARK_BUY
    }),
    Call::Dark(DarkEntry {
        member: DEALER_B,
        reference: 4,
        quantity: 20000,
        contra: DARK_ONLY,
        minimum: 12000,
        ..DARK_BUY
    }),
    Call::Dark(DarkEntry {
        member: DEALER_A,
        reference: 5,
        quantity: 2000,
        ..DARK_BUY
    }),
    Call::Dark(DarkEntry {
        member: DEALER_B,
        reference: 6,
        quantity: 1000,
        ..DARK_BUY
    }),
    Call::Dark(DarkEntry {
        member: DEALER_C,
        reference: 7,
        quantity: 3000,
        contra: DARK_ONLY,
        minimum: 2000,
        ..DARK_BUY
    }),
    Call::Lit(LitEntry {
        member: DEALER_C,
        reference: 101,
        quantity: 100,
        price: 2416,
        ..LIT_BUY
    }),
];
