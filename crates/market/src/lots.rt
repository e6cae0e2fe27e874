// Lots, quantities and minimums, in shares.
ghost use Rattle.std.specs.Prelude.{◌≡◌};
ghost use Rattle.market.specs.Lots.{valid_lot, round_lot, valid_quantity, valid_minimum};

pub fn is_valid_lot(lot: u32) -> bool
    ensures { result ≡ valid_lot lot }
{
    matches!(lot, 100 | 500 | 1000)
}

// Whether so many shares are whole lots.
pub fn is_round_lot(lot: u32, shares: u32) -> bool
    ensures { result ≡ round_lot lot shares }
{
    shares.is_multiple_of(lot)
}

pub fn is_valid_quantity(lot: u32, shares: u32) -> bool
    ensures { result ≡ valid_quantity lot shares }
{
    shares > 0 && shares <= 1_000_000 && is_round_lot(lot, shares)
}

// Whether `minimum` may stand on an order of so many shares.
pub fn is_valid_minimum(lot: u32, shares: u32, minimum: u32) -> bool
    ensures { result ≡ valid_minimum lot shares minimum }
{
    minimum == 0 || (is_round_lot(lot, minimum) && minimum <= shares)
}
