// Why the check refuses a sheet.
ghost use Rattle.std.specs.Prelude.{◌≡◌, Some};
ghost use Rattle.std.specs.Option.{option_to_list};
ghost use Rattle.game.specs.Refusals.{Refused, refusal_text, tells};

use std::error::Error;
use std::fmt;

// A refusal of a rule that has a number.
pub trait Numbered {
    // The number and the values that it tells.
    ghost tells: { Self → Refused };

    // The number of the broken rule.
    fn number(&self) -> u8
        ensures { result ≡ (tells self.now).number };
}

// What was handed over, given back with the reason.
#[derive(Clone, Copy, Debug, Drop, PartialEq, Eq)]
pub struct GivenBack<E, T> {
    pub refusal: E,
    pub given: T,
}

impl<E: fmt::Display, T> fmt::Display for GivenBack<E, T> {
    ghost output = { λ x. E.output x.refusal };

    ghost styled_output = { λ x spec. E.styled_output x.refusal spec };

    fn fmt<W: fmt::Write>(&self, f: &mut fmt::Formatter<W>) -> fmt::Result {
        self.refusal.fmt(f)
    }
}

impl<E: Error, T: fmt::Debug + Drop> Error for GivenBack<E, T> {}

// The first broken rule. Each case but the first names the first position whose entry breaks one.
#[derive(Clone, Copy, PartialEq, Eq, Debug)]
pub enum Refusal {
    // The sheet has not one entry for each position.
    Length,
    // The colour is no side's number.
    Colour(usize),
    // The choice is no move of the winner's position, or is not 0 at a position of the other side.
    Choice(usize),
    // A move that counts leads to another colour.
    Move(usize),
    // The rank is not 0 where the kind is the colour, or is 0 where it is not.
    Rank(usize),
    // The kind is not the colour, and a move that counts within the level leads to no smaller rank.
    Fall(usize),
}

impl Numbered for Refusal {
    ghost tells = { tells };

    fn number(&self) -> u8 {
        match self {
            Refusal::Length => 11,
            Refusal::Colour(_) => 21,
            Refusal::Choice(_) => 22,
            Refusal::Move(_) => 23,
            Refusal::Rank(_) => 24,
            Refusal::Fall(_) => 25,
        }
    }
}

impl Refusal {
    // The position whose entry breaks it.
    pub fn position(&self) -> Option<usize>
        ensures { option_to_list result ≡ (tells self.now).values }
    {
        match self {
            Refusal::Length => None,
            Refusal::Colour(v)
            | Refusal::Choice(v)
            | Refusal::Move(v)
            | Refusal::Rank(v)
            | Refusal::Fall(v) => Some(*v),
        }
    }
}

impl fmt::Display for Refusal {
    ghost output = { λ r. Some (refusal_text (tells r)) };

    fn fmt<W: fmt::Write>(&self, f: &mut fmt::Formatter<W>) -> fmt::Result {
        let number = self.number();
        match self.position() {
            Some(v) => write!(f, "refused {number} at position {v}"),
            None => write!(f, "refused {number}"),
        }
    }
}

impl Error for Refusal {}
