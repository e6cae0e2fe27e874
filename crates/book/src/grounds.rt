// The grounds of refusal that ask about the call alone. The entries are three records, flat as members send them, so each arm
// reads its own.
ghost use Rattle.std.specs.Prelude.{◌≡◌};
ghost use Rattle.book.specs.Grounds.{member_fails as member_failing, quantity_fails as quantity_failing, price_fails as price_failing, minimum_fails as minimum_failing, crosses as crossing};

use crate::call::Call;
use market::codes::Side;
use market::lots::{is_valid_minimum, is_valid_quantity};
use market::orders::is_valid_member;
use market::prices::{is_cap_or_none, is_price_or_none, is_valid_price};
use market::quotes::Quote;

// Ground 5.
pub fn member_fails<R: Copy>(call: &Call<R>) -> bool
    ensures { result ≡ member_failing call.now }
{
    match call {
        Call::Quote(_) | Call::Start => false,
        Call::Dark(e) => !is_valid_member(e.member),
        Call::Sdl(e) => !is_valid_member(e.member),
        Call::Lit(e) => !is_valid_member(e.member),
    }
}

// Ground 10.
pub fn quantity_fails<R: Copy>(lot: u32, call: &Call<R>) -> bool
    ensures { result ≡ quantity_failing lot call.now }
{
    match call {
        Call::Quote(_) | Call::Start => false,
        Call::Dark(e) => !is_valid_quantity(lot, e.quantity),
        Call::Sdl(e) => !is_valid_quantity(lot, e.quantity),
        Call::Lit(e) => !is_valid_quantity(lot, e.quantity),
    }
}

// Ground 11.
pub fn price_fails<R: Copy>(call: &Call<R>) -> bool
    ensures { result ≡ price_failing call.now }
{
    match call {
        Call::Quote(away) => !(is_price_or_none(away.bid) && is_price_or_none(away.offer)),
        Call::Dark(e) => !is_cap_or_none(e.cap),
        Call::Sdl(e) => !is_price_or_none(e.limit),
        Call::Lit(e) => !is_valid_price(e.price),
        Call::Start => false,
    }
}

// Ground 12.
pub fn minimum_fails<R: Copy>(lot: u32, call: &Call<R>) -> bool
    ensures { result ≡ minimum_failing lot call.now }
{
    match call {
        Call::Dark(e) => !is_valid_minimum(lot, e.quantity, e.minimum),
        Call::Quote(_) | Call::Sdl(_) | Call::Lit(_) | Call::Start => false,
    }
}

// A lit order that could trade at once crosses the quote.
pub fn crosses(side: Side, quote: &Quote, price: u32) -> bool
    ensures { result ≡ crossing side quote.now price }
{
    match side {
        Side::Buy => quote.offer != 0 && price >= quote.offer,
        Side::Sell => quote.bid != 0 && price <= quote.bid,
    }
}
