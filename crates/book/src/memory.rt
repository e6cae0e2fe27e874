// The memory that a host lends with a call.
use market::orders::{DarkOrder, Fill, LitOrder};

// Two tables of 256 places, and a list of 513 places or more for the fills. Any lengths may be lent: a call on others is
// refused.
#[derive(Drop)]
pub struct Memory<'a, R> {
    pub dark: &'a mut [DarkOrder<R>],
    pub lit: &'a mut [LitOrder<R>],
    pub fills: &'a mut [Fill<R>],
}
