// Where a position of a pair lies.

// A position of a pair, by the part that it belongs to.
#[derive(Clone, Copy)]
pub(crate) enum Seat {
    // The head.
    Head,
    // This position of the first game.
    First(usize),
    // This position of the second game.
    Second(usize),
}
