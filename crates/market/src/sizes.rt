// Small and Large SDL orders.
ghost use Rattle.std.specs.Prelude.{◌≡◌};
ghost use Rattle.market.specs.Sizes.{size_class};

#[derive(Clone, Copy, PartialEq, Eq)]
pub enum Size {
    Small,
    Large,
}

// The size class of so many shares at this price; 0 is no price, as everywhere.
pub fn size_of(lot: u32, shares: u32, price: u32) -> Size
    ensures { result ≡ size_class lot shares price }
{
    if price == 0
        || (shares as u64 <= 50 * lot as u64 && shares as u64 * price as u64 <= 40_000_000)
    {
        Size::Small
    } else {
        Size::Large
    }
}
