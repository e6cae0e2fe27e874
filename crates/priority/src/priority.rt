// The priorities, and the pile of two.
ghost use Rattle.std.specs.Prelude.{◌≡◌};
ghost use Rattle.std.specs.declared.cmp.Ordering.TheVariants.{Equal};
ghost use Rattle.std.specs.Ordering.{ordering_reverse, ordering_then};
ghost use Rattle.priority.specs.declared.standing.ActiveView.{ActiveView};
ghost use Rattle.priority.specs.declared.standing.RestingView.{RestingView};
ghost use Rattle.priority.specs.Standings.{Standing, NotBehind, by_test, own_order, enough_shares};
ghost use Rattle.std.proofs.Common.{rules};
ghost use Rattle.priority.specs.Piles.{pile_chain};

use crate::standing::{ActiveView, RestingView};
use market::codes::Kind;
use std::cmp::Ordering;

// A priority compares two resting orders for one active order: `Less` where the first goes ahead of the second. Its
// meaning is that ordering, bound by three laws.
pub trait Priority {
    ghost order: { Self → ActiveView → RestingView → RestingView → Standing };

    fn compare(&self, q: &ActiveView, a: &RestingView, b: &RestingView) -> Ordering
        ensures { result ≡ order self.now q.now a.now b.now };

    // exchanging the two exchanges the answer
    ghost swapped: { (p : Self) (q : ActiveView) (a b : RestingView) → order p q b a ≡ ordering_reverse (order p q a b) };

    // an order is level with itself
    ghost same: { (p : Self) (q : ActiveView) (a : RestingView) → order p q a a ≡ Equal };

    // what is not behind one that is not behind a third is not behind the third
    ghost chain: { (p : Self) (q : ActiveView) (a b c : RestingView) → NotBehind (order p q a b) → NotBehind (order p q b c) → NotBehind (order p q a c) };
}

// One that passes a test is ahead of one that does not.
fn by_flags(a: bool, b: bool) -> Ordering
    ensures { result ≡ by_test a b }
{
    b.cmp(&a)
}

// Whether a resting order is of the active order's member. A jitney order is nobody's, except where SDL meets Dark.
fn is_own(q: &ActiveView, a: &RestingView) -> bool
    ensures { result ≡ own_order q.now a.now }
{
    let marks_count = q.kind != Kind::SdlDark;
    q.member == a.member && (!marks_count || (!q.jitney && !a.jitney))
}

fn is_enough(q: &ActiveView, a: &RestingView) -> bool
    ensures { result ≡ enough_shares q.now a.now }
{
    a.remaining >= q.need
}

// Own Member and Enough Size each go by a test. One type over any test would prove the laws once, and want a trait of tests,
// a type for each, and a name for each pair: that is more than the few lines that the two have alike.

// Orders of the active order's member are ahead of others.
#[derive(Clone, Copy)]
pub struct OwnMember;

impl Priority for OwnMember {
    ghost order = { λ _ q a b. by_test (own_order q a) (own_order q b) };

    ghost swapped = { Prim.search rules };

    ghost same = { Prim.search rules };

    ghost chain = { Prim.search rules };

    fn compare(&self, q: &ActiveView, a: &RestingView, b: &RestingView) -> Ordering {
        by_flags(is_own(q, a), is_own(q, b))
    }
}

// Orders whose remaining shares reach the need are ahead of others.
#[derive(Clone, Copy)]
pub struct EnoughSize;

impl Priority for EnoughSize {
    ghost order = { λ _ q a b. by_test (enough_shares q a) (enough_shares q b) };

    ghost swapped = { Prim.search rules };

    ghost same = { Prim.search rules };

    ghost chain = { Prim.search rules };

    fn compare(&self, q: &ActiveView, a: &RestingView, b: &RestingView) -> Ordering {
        by_flags(is_enough(q, a), is_enough(q, b))
    }
}

// No order is ahead of another.
#[derive(Clone, Copy)]
pub struct AllLevel;

impl Priority for AllLevel {
    ghost order = { λ _ _ _ _. Equal };

    ghost swapped = { Prim.search rules };

    ghost same = { Prim.search rules };

    ghost chain = { Prim.search rules };

    fn compare(&self, _q: &ActiveView, _a: &RestingView, _b: &RestingView) -> Ordering {
        Ordering::Equal
    }
}

// The upper priority, and the lower where the upper says level.
#[derive(Clone, Copy)]
pub struct Pile<X, Y> {
    pub upper: X,
    pub lower: Y,
}

impl<X: Priority, Y: Priority> Priority for Pile<X, Y> {
    ghost order = { λ p q a b. ordering_then (X.Priority.order p.upper q a b) (Y.Priority.order p.lower q a b) };

    ghost swapped = { Prim.search rules };

    ghost same = { Prim.search rules };

    ghost chain = { λ p q a b c.
        let m = X.Priority in
        let u = p.upper in
        pile_chain _ _ _ _ _ _
        (m.chain u q a b c)
        (λ bc ca. rw (m.swapped u q a b) at (m.chain u q b c a bc (rw (m.swapped u q a c) ca)))
        (λ ca ab. rw (m.swapped u q b c) at (m.chain u q c a b (rw (m.swapped u q a c) ca) ab))
        (Y.Priority.chain p.lower q a b c) };

    fn compare(&self, q: &ActiveView, a: &RestingView, b: &RestingView) -> Ordering {
        self.upper
            .compare(q, a, b)
            .then_with(|| self.lower.compare(q, a, b))
    }
}
