// The questions that every game answers.
ghost use Rattle.std.specs.Prelude.{◌≡◌, List, length};
ghost use Rattle.game.specs.Positions.{Position, owner_at, level_at, kind_at, degree_at, target_at};
ghost use Rattle.game.specs.Laws.{Bounded, Monotone, KeepsKind, Lawful};

use crate::side::Side;

// The most positions that a game has.
pub const MOST_POSITIONS: usize = 16384;

// A two-player game on positions 0 to count - 1. Its meaning is the list of its positions, and
// each answer is read off that list: absent exactly where the position or the move is not there.
pub trait Game {
    ghost meaning: { Self → List Position };

    // How many positions there are.
    fn count(&self) -> usize
        ensures { result ≡ length (meaning self.now) };

    // The side that moves at `p`.
    fn owner(&self, p: usize) -> Option<Side>
        ensures { result ≡ owner_at (meaning self.now) p };

    // The level (priority) of `p`.
    fn level(&self, p: usize) -> Option<usize>
        ensures { result ≡ level_at (meaning self.now) p };

    // The kind (parity) of `p`: the side that wins where play stays in its level for ever.
    fn kind(&self, p: usize) -> Option<Side>
        ensures { result ≡ kind_at (meaning self.now) p };

    // How many moves `p` has.
    fn degree(&self, p: usize) -> Option<usize>
        ensures { result ≡ degree_at (meaning self.now) p };

    // The position that move `k` of `p` leads to.
    fn target(&self, p: usize, k: usize) -> Option<usize>
        ensures { result ≡ target_at (meaning self.now) p k };

    ghost bounded: { (x : Self) → Bounded (meaning x) };

    ghost monotone: { (x : Self) → Monotone (meaning x) };

    ghost keeps: { (x : Self) → KeepsKind (meaning x) };

    // The three together.
    ghost lawful: { (x : Self) → Lawful (meaning x) } = { λ x. record { bounded = bounded x; monotone = monotone x; keeps_kind = keeps x } };
}
