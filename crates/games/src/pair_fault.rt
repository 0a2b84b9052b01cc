// Why two games make no pair.
ghost use Rattle.std.specs.Prelude.{Some};
ghost use Rattle.game.specs.Refusals.{refusal_text};
ghost use Rattle.games.specs.Pairs.{tells};

use game::refusal::{GivenBack, Numbered};
use std::error::Error;
use std::fmt;

// Why two games make no pair.
#[derive(Clone, Copy, PartialEq, Eq, Debug)]
pub enum PairFault {
    // A move of the head leads to no position.
    Absent = 12,
    // There are too many positions.
    Count = 13,
}

// The two games as they were handed over, and why they make no pair.
pub type PairRefused<A, B> = GivenBack<PairFault, (A, B)>;

impl Numbered for PairFault {
    ghost tells = { tells };

    fn number(&self) -> u8 {
        *self as u8
    }
}

impl fmt::Display for PairFault {
    ghost output = { λ fault. Some (refusal_text (tells fault)) };

    fn fmt<W: fmt::Write>(&self, f: &mut fmt::Formatter<W>) -> fmt::Result {
        write!(f, "refused {}", self.number())
    }
}

impl Error for PairFault {}
