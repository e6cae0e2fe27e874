// References of a host's own: a type that tells its values apart by a number, and has no `==`.
ghost use Rattle.std.specs.Prelude.{◌≡◌, ℕ, ◌==◌};
ghost use Rattle.std.proofs.Common.{rules};

use crate::bench::facility;
use crate::entries::{ALL, BUY, SELL};
use book::book::Book;
use book::call::DarkEntry;
use book::memory::Memory;
use market::ground::Ground;
use market::orders::{DarkOrder, Fill, LitOrder};
use market::reference::Reference;
use std::test::*;

#[derive(Clone, Copy, Default)]
struct Ticket {
    number: u32,
}

impl Reference for Ticket {
    ghost number = { λ t. t.number };

    ghost told = { Prim.search rules };

    fn same(&self, other: &Ticket) -> bool {
        self.number == other.number
    }

    fn is_zero(&self) -> bool {
        self.number == 0
    }
}

// 100 shares of member 1, in Pre-Open.
fn entry(number: u32, side: u32) -> DarkEntry<Ticket> {
    DarkEntry {
        member: 1,
        reference: Ticket { number },
        side,
        quantity: 100,
        peg: 1,
        cap: 0,
        contra: ALL,
        minimum: 0,
        jitney: 0,
        key: 0,
    }
}

#[test]
fn a_host_names_orders_by_a_type_of_its_own(rt: HostRuntime) -> Result<(), Fail> {
    let mut dark = [DarkOrder::<Ticket>::default(); 256];
    let mut lit = [LitOrder::default(); 256];
    let mut fills = [Fill::default(); 513];
    let mut memory = Memory {
        dark: &mut dark,
        lit: &mut lit,
        fills: &mut fills,
    };
    let mut book = Book::new(100, facility()).map_err(|_| Fail::new("no book of this lot"))?;
    let first = book.enter_dark(&mut memory, entry(7, BUY));
    let again = book.enter_dark(&mut memory, entry(7, SELL));
    let nameless = book.enter_dark(&mut memory, entry(0, BUY));
    let second = book.enter_dark(&mut memory, entry(8, SELL));
    assert_eq!(rt; first.map_err(Ground::number), Ok((0, 0, 0)));
    assert_eq!(rt; again.map_err(Ground::number), Err(8));
    assert_eq!(rt; nameless.map_err(Ground::number), Err(8));
    assert_eq!(rt; second.map_err(Ground::number), Ok((0, 0, 0)));
    assert_eq!(rt; dark[1].reference.number, 8);
    Ok(())
}
