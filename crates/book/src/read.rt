// Calls read as requests, each code by its list; ground 6 where a code is not listed.
ghost use Rattle.std.specs.Prelude.{◌≡◌, ok_or};
ghost use Rattle.market.specs.declared.ground.Ground.TheVariants.{Code as NotListed};
ghost use Rattle.book.specs.Requests.{dark_of, sdl_of, lit_of, request_of};

use crate::call::{Call, DarkEntry, LitEntry, Request, SdlEntry, SdlOrder};
use market::codes::{Contra, Peg, Seek, Side, mark_from_code};
use market::ground::Ground;
use market::orders::{DarkOrder, LitOrder};

impl<R: Copy> TryFrom<&DarkEntry<R>> for DarkOrder<R> {
    type Error = Ground;

    ghost try_from_gives = { λ e r. r ≡ ok_or (dark_of e.now) NotListed };

    #[tactic(auto, unfolding(crate::specs::Requests::dark_of))]
    fn try_from(e: &DarkEntry<R>) -> Result<DarkOrder<R>, Ground> {
        let side = Side::try_from(e.side)?;
        let peg = Peg::try_from(e.peg)?;
        let contra = Contra::try_from(e.contra)?;
        let jitney = mark_from_code(e.jitney)?;
        Ok(DarkOrder {
            member: e.member,
            reference: e.reference,
            side,
            remaining: e.quantity,
            peg,
            cap: e.cap,
            contra,
            minimum: e.minimum,
            jitney,
            key: e.key,
        })
    }
}

impl<R: Copy> TryFrom<&SdlEntry<R>> for SdlOrder<R> {
    type Error = Ground;

    ghost try_from_gives = { λ e r. r ≡ ok_or (sdl_of e.now) NotListed };

    #[tactic(auto, unfolding(crate::specs::Requests::sdl_of))]
    fn try_from(e: &SdlEntry<R>) -> Result<SdlOrder<R>, Ground> {
        let side = Side::try_from(e.side)?;
        let seek = Seek::try_from(e.seek)?;
        let jitney = mark_from_code(e.jitney)?;
        Ok(SdlOrder {
            member: e.member,
            reference: e.reference,
            side,
            quantity: e.quantity,
            limit: e.limit,
            seek,
            jitney,
        })
    }
}

impl<R: Copy> TryFrom<&LitEntry<R>> for LitOrder<R> {
    type Error = Ground;

    ghost try_from_gives = { λ e r. r ≡ ok_or (lit_of e.now) NotListed };

    #[tactic(auto, unfolding(crate::specs::Requests::lit_of))]
    fn try_from(e: &LitEntry<R>) -> Result<LitOrder<R>, Ground> {
        let side = Side::try_from(e.side)?;
        let jitney = mark_from_code(e.jitney)?;
        Ok(LitOrder {
            member: e.member,
            reference: e.reference,
            side,
            remaining: e.quantity,
            price: e.price,
            jitney,
        })
    }
}

impl<R: Copy> TryFrom<&Call<R>> for Request<R> {
    type Error = Ground;

    ghost try_from_gives = { λ call r. r ≡ ok_or (request_of call.now) NotListed };

    fn try_from(call: &Call<R>) -> Result<Request<R>, Ground> {
        match call {
            Call::Quote(away) => Ok(Request::Quote(*away)),
            Call::Dark(e) => Ok(Request::Dark(DarkOrder::try_from(e)?)),
            Call::Sdl(e) => Ok(Request::Sdl(SdlOrder::try_from(e)?)),
            Call::Lit(e) => Ok(Request::Lit(LitOrder::try_from(e)?)),
            Call::Start => Ok(Request::Start),
        }
    }
}
