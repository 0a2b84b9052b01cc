// The two sides of a game.
ghost use Rattle.std.specs.Prelude.{◌≡◌, codes, decimal, Some, ◌++◌};
ghost use Rattle.game.specs.Sides.{number_of, opposite, side_from};

use std::error::Error;
use std::fmt;

// The two players. Where a game stands for a property, Green wants it to hold and Red wants it to fail.
#[derive(Clone, Copy, PartialEq, Eq, Debug)]
pub enum Side {
    Green = 0,
    Red = 1,
}

impl Side {
    // The side that plays against this one.
    pub fn other(self) -> Side
        ensures { result ≡ opposite self }
    {
        match self {
            Side::Green => Side::Red,
            Side::Red => Side::Green,
        }
    }
}

// The number that stands for a side in a sheet.
impl From<Side> for u8 {
    ghost from_gives = { λ side number. number ≡ number_of side };

    fn from(side: Side) -> u8 {
        side as u8
    }
}

// The side that a number stands for.
impl TryFrom<u8> for Side {
    type Error = NoSide;

    ghost try_from_gives = { λ number result. result ≡ side_from number };

    fn try_from(number: u8) -> Result<Side, NoSide> {
        match number {
            0 => Ok(Side::Green),
            1 => Ok(Side::Red),
            _ => Err(NoSide(number)),
        }
    }
}

// A number that stands for no side.
#[derive(Clone, Copy, PartialEq, Eq, Debug)]
pub struct NoSide(pub u8);

impl fmt::Display for NoSide {
    ghost output = { λ e. Some (codes "no side has the number " ++ decimal e.0) };

    fn fmt<W: fmt::Write>(&self, f: &mut fmt::Formatter<W>) -> fmt::Result {
        let number = self.0;
        write!(f, "no side has the number {number}")
    }
}

impl Error for NoSide {}
