// A sheet is a certificate for a game: a slice with an entry for each position.

// What a sheet says of one position. `colour` is the number of the side that wins from there (Green 0,
// Red 1). `choice` is the number of the move by which it wins where it owns the position, else 0.
// `rank`, a progress measure, is 0 where the position's kind is the colour; elsewhere it is at least 1
// and falls along each move that counts within the level.
// The colour is a number and not a `Side`, since a sheet may come from anywhere: a number that is no side's
// is refused.
#[derive(Clone, Copy, PartialEq, Eq, Debug, Default)]
pub struct Entry {
    pub colour: u8,
    pub choice: u16,
    pub rank: u16,
}
