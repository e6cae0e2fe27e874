// The lists of codes that members send, each read by `TryFrom`, and the codes of what is answered: each variant stands with
// its number.
ghost use Rattle.std.specs.Prelude.{◌≡◌, ok_or};
ghost use Rattle.market.specs.declared.ground.Ground.TheVariants.{Code as NotListed};
ghost use Rattle.market.specs.Codes.{side_of, peg_of, contra_of, seek_of, mark_of, kind_number};

use crate::ground::Ground;

#[derive(Clone, Copy, PartialEq, Eq, Default)]
pub enum Side {
    #[default]
    Buy = 1,
    Sell = 2,
}

// What a Dark order's price follows: the midpoint, or the best quote of its own side.
#[derive(Clone, Copy, PartialEq, Eq, Default)]
pub enum Peg {
    #[default]
    Midpoint = 1,
    Touch = 2,
}

// Which contra orders a Dark order trades with.
#[derive(Clone, Copy, PartialEq, Eq, Default)]
pub enum Contra {
    Sdl = 1,
    Dark = 2,
    #[default]
    All = 3,
}

// Which liquidity an SDL order seeks.
#[derive(Clone, Copy, PartialEq, Eq)]
pub enum Seek {
    DarkAndLit = 1,
    ImprovingDark = 2,
    AllDark = 3,
}

// Who met whom in a fill, with the number that a fill shows.
#[derive(Clone, Copy, Debug, PartialEq, Eq, Default)]
pub enum Kind {
    #[default]
    SdlDark = 1,
    SdlLit = 2,
    DarkDark = 3,
}

impl TryFrom<u32> for Side {
    type Error = Ground;

    ghost try_from_gives = { λ code r. r ≡ ok_or (side_of code) NotListed };

    fn try_from(code: u32) -> Result<Side, Ground> {
        match code {
            1 => Ok(Side::Buy),
            2 => Ok(Side::Sell),
            _ => Err(Ground::Code),
        }
    }
}

impl TryFrom<u32> for Peg {
    type Error = Ground;

    ghost try_from_gives = { λ code r. r ≡ ok_or (peg_of code) NotListed };

    fn try_from(code: u32) -> Result<Peg, Ground> {
        match code {
            1 => Ok(Peg::Midpoint),
            2 => Ok(Peg::Touch),
            _ => Err(Ground::Code),
        }
    }
}

impl TryFrom<u32> for Contra {
    type Error = Ground;

    ghost try_from_gives = { λ code r. r ≡ ok_or (contra_of code) NotListed };

    fn try_from(code: u32) -> Result<Contra, Ground> {
        match code {
            1 => Ok(Contra::Sdl),
            2 => Ok(Contra::Dark),
            3 => Ok(Contra::All),
            _ => Err(Ground::Code),
        }
    }
}

impl TryFrom<u32> for Seek {
    type Error = Ground;

    ghost try_from_gives = { λ code r. r ≡ ok_or (seek_of code) NotListed };

    fn try_from(code: u32) -> Result<Seek, Ground> {
        match code {
            1 => Ok(Seek::DarkAndLit),
            2 => Ok(Seek::ImprovingDark),
            3 => Ok(Seek::AllDark),
            _ => Err(Ground::Code),
        }
    }
}

impl Kind {
    pub fn number(self) -> u32
        ensures { result ≡ kind_number self }
    {
        self as u32
    }
}

// A jitney mark: whether a member trades for another. A function, since neither `bool` nor `TryFrom` is of this crate.
pub fn mark_from_code(code: u32) -> Result<bool, Ground>
    ensures { result ≡ ok_or (mark_of code) NotListed }
{
    match code {
        0 => Ok(false),
        1 => Ok(true),
        _ => Err(Ground::Code),
    }
}
