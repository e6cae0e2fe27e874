// Prices as people read them.
ghost use Rattle.std.specs.Prelude.{◌≡◌, ◌+◌, ◌*◌, ◌<◌};

use std::fmt;

// An amount in dollars, with the ten-thousandths of a dollar beside the whole ones.
#[derive(Clone, Copy)]
pub struct Dollars {
    whole: u32,
    ten_thousandths: u32,
}

impl Dollars {
    // A price in quarter cents: 400 to the dollar, so that each is 25 ten-thousandths. By a name and not by `From`, since
    // the number alone does not say its unit.
    pub fn from_units(units: u32) -> Dollars
        ensures sum { result.whole * 10000 + result.ten_thousandths ≡ units * 25 }
        ensures fraction { result.ten_thousandths < 10000 }
    {
        Dollars {
            whole: units / 400,
            ten_thousandths: units % 400 * 25,
        }
    }
}

impl fmt::Display for Dollars {
    fn fmt<W: fmt::Write>(&self, f: &mut fmt::Formatter<W>) -> fmt::Result {
        write!(f, "{}.{:04}", self.whole, self.ten_thousandths)
    }
}
