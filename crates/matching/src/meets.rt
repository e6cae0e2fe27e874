// Who may meet whom.
ghost use Rattle.std.specs.Prelude.{◌≡◌};
ghost use Rattle.market.specs.Codes.{opposed};
ghost use Rattle.matching.specs.Meets.{in_bounds, sdl_meets_dark, self_trade, both_midpoint, minimums_met, dark_meets_dark, meets_dark, may_meet_dark, sdl_meets_lit, meets_lit, may_meet_lit};

use crate::active::{Active, DarkForm, DarkTerms, Form, LitTerms, SdlForm};
use market::codes::{Contra, Peg, Seek, Side};
use market::orders::{DarkOrder, LitOrder};
use market::prices::{is_beyond, is_within};
use market::sizes::Size;

fn are_opposed(a: Side, b: Side) -> bool
    ensures { result ≡ opposed a b }
{
    a != b
}

// Whether an SDL order of this form may trade at `price` with a Dark order.
#[tactic(auto, unfolding(crate::specs::Meets::in_bounds))]
fn is_in_bounds<R: Copy>(t: &DarkTerms<R>, f: SdlForm, price: u32) -> bool
    ensures { result ≡ in_bounds t.now f price }
{
    let side = t.active.side;
    let away = t.quote.away_against(side);
    match f.size {
        Size::Small if !is_beyond(side, away, price) => false,
        Size::Large if !is_within(side, away, price) => false,
        Size::Small | Size::Large => is_within(side, f.limit, price)
            && is_beyond(side, t.lit, price),
    }
}

// Whether an SDL order meets a Dark order of this contra preference, priced `price`.
fn sdl_dark<R: Copy>(t: &DarkTerms<R>, f: SdlForm, contra: Contra, price: u32) -> bool
    ensures { result ≡ sdl_meets_dark t.now f contra price }
{
    let side = t.active.side;
    let best = t.quote.against(side);
    match (contra, f.seek) {
        (Contra::Dark, _) => false,
        (Contra::Sdl | Contra::All, Seek::ImprovingDark) if !is_beyond(side, best, price) => false,
        (Contra::Sdl | Contra::All, _) => is_in_bounds(t, f, price),
    }
}

fn is_self_trade<R: Copy>(key: u32, a: &Active<R>, d: &DarkOrder<R>) -> bool
    ensures { result ≡ self_trade key a.now d.now }
{
    a.member == d.member && key == d.key && key != 0
}

// Whether both are Midpoint orders that take Dark orders.
fn are_both_midpoint<R: Copy>(f: DarkForm, d: &DarkOrder<R>) -> bool
    ensures { result ≡ both_midpoint f d.now }
{
    f.peg == Peg::Midpoint
        && d.peg == Peg::Midpoint
        && f.contra != Contra::Sdl
        && d.contra != Contra::Sdl
}

fn are_minimums_met<R: Copy>(a: &Active<R>, d: &DarkOrder<R>) -> bool
    ensures { result ≡ minimums_met a.now d.now }
{
    a.minimum <= d.remaining && d.minimum <= a.remaining
}

// Whether an active Dark order of this form meets a resting one, priced `price`.
fn dark_dark<R: Copy>(t: &DarkTerms<R>, f: DarkForm, d: &DarkOrder<R>, price: u32) -> bool
    ensures { result ≡ dark_meets_dark t.now f d.now price }
{
    let midpoint = t.quote.midpoint();
    let own = t.quote.dark_price(t.active.side, f.peg, f.cap);
    are_both_midpoint(f, d)
        && own == midpoint
        && price == midpoint
        && are_minimums_met(&t.active, d)
        && !is_self_trade(f.key, &t.active, d)
}

#[tactic(auto, unfolding(crate::specs::Meets::meets_dark))]
fn meets_dark_at<R: Copy>(t: &DarkTerms<R>, d: &DarkOrder<R>, price: u32) -> bool
    ensures { result ≡ meets_dark t.now.active.form t.now d.now price }
{
    match t.active.form {
        Form::Sdl(f) => sdl_dark(t, f, d.contra, price),
        Form::Dark(f) => dark_dark(t, f, d, price),
    }
}

pub fn meets_dark_order<R: Copy>(t: &DarkTerms<R>, d: &DarkOrder<R>) -> bool
    ensures { result ≡ may_meet_dark t.now d.now }
{
    if t.active.remaining == 0 || !are_opposed(d.side, t.active.side) {
        return false;
    }
    let price = t.quote.dark_price(d.side, d.peg, d.cap);
    price != 0 && meets_dark_at(t, d, price)
}

fn sdl_lit<R: Copy>(t: &LitTerms<R>, f: SdlForm, price: u32) -> bool
    ensures { result ≡ sdl_meets_lit t.now f price }
{
    let side = t.active.side;
    f.seek == Seek::DarkAndLit
        && is_within(side, f.limit, price)
        && is_within(side, t.quote.away_against(side), price)
}

#[tactic(auto, unfolding(crate::specs::Meets::meets_lit))]
fn meets_lit_at<R: Copy>(t: &LitTerms<R>, price: u32) -> bool
    ensures { result ≡ meets_lit t.now.active.form t.now price }
{
    match t.active.form {
        Form::Sdl(f) => sdl_lit(t, f, price),
        Form::Dark(_) => false,
    }
}

pub fn meets_lit_order<R: Copy>(t: &LitTerms<R>, l: &LitOrder<R>) -> bool
    ensures { result ≡ may_meet_lit t.now l.now }
{
    t.active.remaining > 0 && are_opposed(l.side, t.active.side) && meets_lit_at(t, l.price)
}
