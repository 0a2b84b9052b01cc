// How a play stands.
use game::side::Side;

// Whose turn it is, or that the play has ended: it stands at a position without moves.
#[derive(Clone, Copy, PartialEq, Eq, Debug)]
pub enum Turn {
    House,
    Guest,
    Ended,
}

// The record of a play: the house, the position where it stands, the steps made, and how many of the
// steps entered a position of the guest's kind.
#[derive(Clone, Copy, PartialEq, Eq, Debug)]
pub struct Record {
    pub house: Side,
    pub position: usize,
    pub steps: u16,
    pub entered: u16,
}

// An outcome as it is told: whose turn it is, with the record so far.
#[derive(Clone, Copy, PartialEq, Eq, Debug)]
pub struct Standing {
    pub turn: Turn,
    pub log: Record,
}
