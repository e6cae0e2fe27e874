// Prices, in units of a quarter cent; 0 stands for no price. Members send it so and tables keep it so, and prices are
// compared and capped as they come: an Option would be opened and closed again at each of these places.
ghost use Rattle.std.specs.Prelude.{◌≡◌};
ghost use Rattle.market.specs.Prices.{valid_price, valid_cap, price_or_none, cap_or_none, better, within, beyond};

use crate::codes::Side;

pub fn is_valid_price(price: u32) -> bool
    ensures { result ≡ valid_price price }
{
    price >= 2
        && price <= 4_000_000
        && if price < 200 {
            price.is_multiple_of(2)
        } else {
            price.is_multiple_of(4)
        }
}

// Caps have a name of their own beside prices, since the two grids are two rules that happen to agree.
pub fn is_valid_cap(cap: u32) -> bool
    ensures { result ≡ valid_cap cap }
{
    is_valid_price(cap)
}

pub fn is_price_or_none(price: u32) -> bool
    ensures { result ≡ price_or_none price }
{
    price == 0 || is_valid_price(price)
}

pub fn is_cap_or_none(cap: u32) -> bool
    ensures { result ≡ cap_or_none cap }
{
    cap == 0 || is_valid_cap(cap)
}

// Whether `x` is a better price than `y` for an order of this side to trade at.
pub fn is_better(side: Side, x: u32, y: u32) -> bool
    ensures { result ≡ better side x y }
{
    match side {
        Side::Buy => x < y,
        Side::Sell => x > y,
    }
}

// Whether an order of this side that trades at `price` keeps to `bound`; 0 binds nobody.
pub fn is_within(side: Side, bound: u32, price: u32) -> bool
    ensures { result ≡ within side bound price }
{
    bound == 0 || !is_better(side, bound, price)
}

// Whether an order of this side that trades at `price` does better than `mark`; 0 is no mark.
pub fn is_beyond(side: Side, mark: u32, price: u32) -> bool
    ensures { result ≡ beyond side mark price }
{
    mark == 0 || is_better(side, price, mark)
}
