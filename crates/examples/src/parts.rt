// Rows and entries, written in a line.
ghost use Rattle.std.specs.Prelude.{◌≡◌};

use game::sheet::Entry;
use games::row::Row;

// The row of these numbers.
pub fn row(owner: u16, level: u16, kind: u16, first: u16, count: u16) -> Row
    ensures { result ≡ record { owner = owner; level = level; kind = kind; first = first; count = count } }
{
    Row {
        owner,
        level,
        kind,
        first,
        count,
    }
}

// The entry of these numbers.
pub fn entry(colour: u8, choice: u16, rank: u16) -> Entry
    ensures { result ≡ record { colour = colour; choice = choice; rank = rank } }
{
    Entry {
        colour,
        choice,
        rank,
    }
}
