// Why a call is refused.
ghost use Rattle.std.specs.Prelude.{◌≡◌};
ghost use Rattle.market.specs.Grounds.{ground_number};

#[derive(Clone, Copy, PartialEq, Eq)]
pub enum Ground {
    Lot = 1,
    Closed = 2,
    Memory = 3,
    Trades = 4,
    Member = 5,
    Code = 6,
    Session = 7,
    Reference = 8,
    Unknown = 9,
    Quantity = 10,
    Price = 11,
    Minimum = 12,
    Crossing = 13,
    Full = 14,
}

impl Ground {
    // The number that a member is told.
    pub fn number(self) -> u32
        ensures { result ≡ ground_number self }
    {
        self as u32
    }
}
