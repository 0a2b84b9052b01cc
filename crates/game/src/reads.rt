// A game's answers where one is wanted at any number: past the end of the game they are those of a
// blank position, Green's, of level 0 and kind Green, without moves; a move that is not there leads to 0.
#![tactic(auto, using(crate::proofs::Answered::reads))]

ghost use Rattle.std.specs.Prelude.{◌≡◌, ◌<◌, length};
ghost use Rattle.game.specs.Positions.{position, degree, target};

use crate::arena::Game;
use crate::side::Side;

// The owner of `v`.
pub fn owner_of<G: Game>(game: &G, v: usize) -> Side
    ensures { result ≡ (position (G.Game.meaning game.now) v).owner }
{
    game.owner(v).unwrap_or(Side::Green)
}

// The level of `v`.
pub fn level_of<G: Game>(game: &G, v: usize) -> usize
    ensures { result ≡ (position (G.Game.meaning game.now) v).level }
{
    game.level(v).unwrap_or(0)
}

// The kind of `v`.
pub fn kind_of<G: Game>(game: &G, v: usize) -> Side
    ensures { result ≡ (position (G.Game.meaning game.now) v).kind }
{
    game.kind(v).unwrap_or(Side::Green)
}

// How many moves `v` has.
pub fn degree_of<G: Game>(game: &G, v: usize) -> usize
    ensures { result ≡ degree (G.Game.meaning game.now) v }
{
    game.degree(v).unwrap_or(0)
}

// Where move `k` of `v` leads; always to a position of the game.
pub fn target_of<G: Game>(game: &G, v: usize, k: usize) -> usize
    ensures value { result ≡ target (G.Game.meaning game.now) v k }
    ensures bound { result < length (G.Game.meaning game.now) }
{
    game.target(v, k).unwrap_or(0)
}
