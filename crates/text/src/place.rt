// Places in a text, and refusals.
ghost use Rattle.std.specs.Prelude.{◌≡◌, ◌++◌, codes, Some};
ghost use Rattle.std.specs.Fmt.{decimal};
ghost use Rattle.text.specs.Refusals.{tells, place_text, refusal_text};

use std::error::Error;
use std::fmt;

// A place in a text: the line, counted from 1, and the byte in it, counted from 0.
#[derive(Clone, Copy, Debug, PartialEq, Eq)]
pub struct Place {
    pub line: usize,
    pub offset: usize,
}

impl Place {
    // The first byte of a line.
    pub(crate) fn start_of(line: usize) -> Place
        ensures { result ≡ record { line = line; offset = 0 } }
    {
        Place { line, offset: 0 }
    }

    // A refusal at this place.
    pub(crate) fn refusal(self, cause: Cause) -> TextRefusal
        ensures { result ≡ record { cause = cause; place = self } }
    {
        TextRefusal { cause, place: self }
    }
}

impl fmt::Display for Place {
    ghost output = { λ p. Some (place_text p) };

    fn fmt<W: fmt::Write>(&self, f: &mut fmt::Formatter<W>) -> fmt::Result {
        write!(f, "line {}, byte {}", self.line, self.offset)
    }
}

// Why a text is refused. Each cause has the number of its refusal.
#[derive(Clone, Copy, Debug, PartialEq, Eq)]
pub enum Cause {
    // The text is empty or too long.
    Size = 40,
    // A byte is of class other.
    Byte = 41,
    // A number is too large, or has a 0 before more digits.
    Number = 42,
    // A word is too long.
    Word = 43,
    // A line is not one bracketed form with a word after each opening bracket, is not ended, or is one
    // too many.
    Line = 50,
    // Brackets are nested too deep.
    Depth = 51,
    // The word of a form is not known.
    Unknown = 52,
    // A form has other parts than its word asks for.
    Parts = 53,
    // A table's form is not due, or the text is over before the table is.
    Due = 60,
    // A number of a table is out of its range.
    Range = 61,
    // There are too many moves, or a list is too short.
    Room = 62,
}

// Why a text is refused, and where.
#[derive(Clone, Copy, Debug, PartialEq, Eq)]
pub struct TextRefusal {
    pub cause: Cause,
    pub place: Place,
}

impl TextRefusal {
    // The number of the refusal.
    pub fn number(&self) -> u8
        ensures { result ≡ (tells self.now).number }
    {
        self.cause as u8
    }
}

impl fmt::Display for TextRefusal {
    ghost output = { λ r. Some (refusal_text (tells r)) };

    fn fmt<W: fmt::Write>(&self, f: &mut fmt::Formatter<W>) -> fmt::Result {
        write!(f, "refused {} at {}", self.number(), self.place)
    }
}

impl Error for TextRefusal {}
