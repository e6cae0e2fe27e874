// Whether a call is admitted: the grounds of refusal, in their order.
ghost use Rattle.std.specs.Prelude.{◌≡◌, ◌≤◌, IfOk, IfErr, is_err, length};
ghost use Rattle.market.specs.declared.ground.Ground.TheVariants.{Memory as NoMemory};
ghost use Rattle.book.specs.Requests.{request_of};
ghost use Rattle.book.specs.Grounds.{enough_memory, memory_fails, ground_under, Admits};
ghost use Rattle.book.specs.Steps.{contents_on, contents_with};

use super::Core;
use crate::call::{Call, Request};
use crate::grounds::member_fails;
use crate::resting::RestingOrders;
use crate::session::Session;
use market::ground::Ground;
use market::orders::{DarkOrder, LitOrder};
use market::reference::Reference;

// Whether so many places are lent as a call needs: 256 in each table, and 513 or more for the fills.
pub fn is_enough(darks: usize, lits: usize, fills: usize) -> bool
    ensures { result ≡ enough_memory (record { darks = darks; lits = lits; fills = fills }) }
{
    darks == 256 && lits == 256 && fills >= 513
}

// A table comes with how many of its first places count: the places are the host's, and the count is the book's.
impl Core {
    // What rests in the tables that a call brings, or ground 3. Lengths are tested before anything is read.
    fn resting<'a, R: Reference>(
        &'a self,
        dark: &'a [DarkOrder<R>],
        darks: usize,
        lit: &'a [LitOrder<R>],
        lits: usize,
        fills: usize,
    ) -> Result<RestingOrders<'a, R>, Ground>
        requires darks { darks ≤ 256 }
        requires lits { lits ≤ 256 }
        ensures fails { is_err result ≡ memory_fails R.Reference.number self.now.lot (contents_with self.now darks dark.now lits lit.now) (record { darks = length dark.now; lits = length lit.now; fills = fills }) }
        ensures ground { IfErr result (λ g. g ≡ NoMemory) }
        ensures core { IfOk result (λ r. r.core.now ≡ self.now) }
        ensures found { IfOk result (λ r. contents_on r ≡ contents_with self.now darks dark.now lits lit.now) }
    {
        if !is_enough(dark.len(), lit.len(), fills) {
            return Err(Ground::Memory);
        }
        let resting = RestingOrders::new(self, &dark[..darks], &lit[..lits]);
        if !resting.is_sound() {
            return Err(Ground::Memory);
        }
        Ok(resting)
    }

    // The request that a call makes, or the first ground that holds against it.
    #[tactic(auto, unfolding(crate::specs::Grounds::ground_under))]
    pub fn admit<R: Reference>(
        &self,
        session: Session,
        dark: &[DarkOrder<R>],
        darks: usize,
        lit: &[LitOrder<R>],
        lits: usize,
        fills: usize,
        call: &Call<R>,
    ) -> Result<Request<R>, Ground>
        requires darks { darks ≤ 256 }
        requires lits { lits ≤ 256 }
        ensures { Admits (ground_under R.Reference.number self.now.lot (record { session = session; contents = contents_with self.now darks dark.now lits lit.now }) (record { darks = length dark.now; lits = length lit.now; fills = fills }) call.now) (request_of call.now) result }
    {
        if session.is_closed() {
            return Err(Ground::Closed);
        }
        let resting = self.resting(dark, darks, lit, lits, fills)?;
        if self.trades > 999_487 {
            return Err(Ground::Trades);
        }
        if member_fails(call) {
            return Err(Ground::Member);
        }
        let request = Request::try_from(call)?;
        let mut after = session;
        after.advance(call)?;
        resting.check_fields(call, &request)?;
        Ok(request)
    }
}
