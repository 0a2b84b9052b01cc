// Rows, from which a row game is read, and why lists make none.
ghost use Rattle.std.specs.Prelude.{◌≡◌, Some};
ghost use Rattle.std.specs.Option.{option_to_list};
ghost use Rattle.games.specs.Rows.{tells, fault_text};

use game::refusal::{GivenBack, Numbered};
use std::error::Error;
use std::fmt;

// A position as five numbers: owner and kind are sides (Green 0, Red 1), and the moves are the
// `count` targets from place `first` on in a list that all rows share.
// Numbers and an index, since it is the format of what is handed in: a number that is no side's is refused.
#[derive(Clone, Copy, PartialEq, Eq, Debug, Default)]
pub struct Row {
    pub owner: u16,
    pub level: u16,
    pub kind: u16,
    pub first: u16,
    pub count: u16,
}

// Why two lists make no game. Each case but the first names the first row at fault.
#[derive(Clone, Copy, PartialEq, Eq, Debug)]
pub enum RowsFault {
    // There is no row, or there are too many.
    Count,
    // A side is neither 0 nor 1, the span passes the list's end, or a target is no row.
    Malformed(usize),
    // The level is not below the number of rows, or a move breaks a law.
    Unlawful(usize),
}

// The two lists as they were handed over, and why they make no game.
pub type RowsRefused = GivenBack<RowsFault, (Vec<Row>, Vec<u16>)>;

impl Numbered for RowsFault {
    ghost tells = { tells };

    fn number(&self) -> u8 {
        match self {
            RowsFault::Count => 14,
            RowsFault::Malformed(_) => 15,
            RowsFault::Unlawful(_) => 16,
        }
    }
}

impl RowsFault {
    // The row at fault.
    pub fn row(&self) -> Option<usize>
        ensures { option_to_list result ≡ (tells self.now).values }
    {
        match self {
            RowsFault::Count => None,
            RowsFault::Malformed(i) | RowsFault::Unlawful(i) => Some(*i),
        }
    }
}

impl fmt::Display for RowsFault {
    ghost output = { λ fault. Some (fault_text fault) };

    fn fmt<W: fmt::Write>(&self, f: &mut fmt::Formatter<W>) -> fmt::Result {
        let number = self.number();
        match self.row() {
            Some(i) => write!(f, "refused {number} at row {i}"),
            None => write!(f, "refused {number}"),
        }
    }
}

impl Error for RowsFault {}
