// What a host may ask of a book.
ghost use Rattle.std.specs.Prelude.{◌≡◌, ◌≤◌};

use super::Book;
use crate::session::Session;
use market::quotes::Away;

impl<D, L> Book<D, L> {
    pub fn session(&self) -> Session
        ensures { result ≡ self.now.session }
    {
        self.session
    }

    pub fn lot(&self) -> u32
        ensures { result ≡ self.now.core.lot }
    {
        self.core.lot
    }

    // The other markets' quote, as last told.
    pub fn away(&self) -> Away
        ensures { result ≡ self.now.core.away }
    {
        self.core.away
    }

    // The trades of the day so far.
    pub fn trades(&self) -> u32
        ensures { result ≡ self.now.core.trades }
    {
        self.core.trades
    }

    // How many Dark orders rest.
    pub fn resting_darks(&self) -> usize
        ensures count { result ≡ self.now.darks }
        ensures most { result ≤ 256 }
    {
        self.darks
    }

    // How many lit orders rest.
    pub fn resting_lits(&self) -> usize
        ensures count { result ≡ self.now.lits }
        ensures most { result ≤ 256 }
    {
        self.lits
    }
}
