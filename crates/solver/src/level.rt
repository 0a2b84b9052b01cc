// One level of the colouring, in rounds, on the sheet itself.
ghost use Rattle.std.specs.Prelude.{◌≡◌, suc, ◌<◌, ◌≤◌, false, length};
ghost use Rattle.game.specs.Sides.{number_of};
ghost use Rattle.game.specs.Positions.{position};
ghost use Rattle.rounds.specs.Rounds.{takes_at, adds, rounds_at};
ghost use Rattle.solver.specs.Stages.{DoneFrom, Stage, Cleared, IsTakenIn, AllTaken};

use crate::moves::Waiting;
use game::arena::Game;
use game::reads::{kind_of, level_of};
use game::sheet::Entry;
use game::side::Side;

// An entry whose choice is not filled in yet.
fn mark(side: Side, rank: u16) -> Entry
    ensures { result ≡ record { colour = number_of side; choice = 0; rank = rank } }
{
    Entry {
        colour: u8::from(side),
        choice: 0,
        rank,
    }
}

// The functions below that write take game, sheet, level and round as parameters. A struct that holds the `&mut`
// sheet was tried: each contract and loop had to repeat that it still holds the same game and slice. With game,
// level and `n` alone in a struct the colouring took half as long again.

// What a round did, at one position or in a level: whether it took something, and whether it left something of
// the level that is not taken yet.
#[derive(Clone, Copy)]
struct Step {
    taken: bool,
    left: bool,
}

// What round `n` + 1 does at `v`.
fn step_at<G: Game>(game: &G, sheet: &[Entry], level: usize, n: usize, v: usize) -> Step
    requires within { v < length sheet.now }
    requires stage { Stage (G.Game.meaning game.now) level n v sheet.now }
    ensures taken { result.taken ≡ takes_at (G.Game.meaning game.now) level n v }
    ensures left { result.left ≡ false → IsTakenIn (G.Game.meaning game.now) level (suc n) v }
{
    if level_of(game, v) != level {
        return Step {
            taken: false,
            left: false,
        };
    }
    if sheet[v].rank != 0 {
        return Step {
            taken: false,
            left: false,
        };
    }
    let waiting = Waiting {
        game,
        sheet,
        v,
        n,
        level,
        taker: kind_of(game, v).other(),
    };
    let taken = waiting.is_forced();
    Step {
        taken,
        left: !taken,
    }
}

// Round `n` + 1 at `v`: takes it, if it is to be taken now.
fn advance<G: Game>(game: &G, sheet: &mut [Entry], level: usize, n: usize, v: usize) -> Step
    requires within { v < length sheet.old }
    requires few { n < length sheet.old }
    requires stage { Stage (G.Game.meaning game.now) level n v sheet.old }
    ensures stage { Stage (G.Game.meaning game.now) level n (suc v) sheet.new }
    ensures taken { result.taken ≡ takes_at (G.Game.meaning game.now) level n v }
    ensures left { result.left ≡ false → IsTakenIn (G.Game.meaning game.now) level (suc n) v }
{
    let step = step_at(game, sheet, level, n, v);
    if step.taken {
        sheet[v] = mark(kind_of(game, v).other(), n as u16 + 1);
    }
    step
}

// Round `n` + 1 of a level.
fn round<G: Game>(game: &G, sheet: &mut [Entry], level: usize, n: usize) -> Step
    requires few { n < length sheet.old }
    requires stage { Stage (G.Game.meaning game.now) level n 0 sheet.old }
    ensures stage { Stage (G.Game.meaning game.now) level (suc n) 0 sheet.new }
    ensures added { result.taken ≡ adds (G.Game.meaning game.now) level n }
    ensures left { result.left ≡ false → AllTaken (G.Game.meaning game.now) level (suc n) (length sheet.old) }
{
    let mut taken = false;
    let mut left = false;
    // By index: each step reads the whole sheet.
    for v in 0..sheet.len() {
        let step = advance(game, sheet, level, n, v);
        taken |= step.taken;
        left |= step.left;
    }
    Step { taken, left }
}

// Clears the entries of a level: nothing is taken yet. Whether the level has a position.
fn clear<G: Game>(game: &G, sheet: &mut [Entry], level: usize) -> bool
    requires { DoneFrom (G.Game.meaning game.now) (suc level) sheet.old }
    ensures stage { Stage (G.Game.meaning game.now) level 0 0 sheet.new }
    ensures left { result ≡ false → AllTaken (G.Game.meaning game.now) level 0 (length sheet.old) }
{
    let mut left = false;
    for (v, entry) in sheet.iter_mut().enumerate() {
        if level_of(game, v) == level {
            *entry = mark(kind_of(game, v), 0);
            left = true;
        }
    }
    left
}

// Colours a level, the levels above being done; how many rounds added something.
pub(crate) fn colour_level<G: Game>(game: &G, sheet: &mut [Entry], level: usize) -> usize
    requires { DoneFrom (G.Game.meaning game.now) (suc level) sheet.old }
    ensures done { DoneFrom (G.Game.meaning game.now) level sheet.new }
    ensures rounds { result ≡ rounds_at (G.Game.meaning game.now) level }
{
    let mut left = clear(game, sheet, level);
    // No `find`: its closure would change the sheet that the loop is about.
    for n in 0..sheet.len() {
        // Where nothing is left, a round would add nothing.
        if !left {
            return n;
        }
        let step = round(game, sheet, level, n);
        if !step.taken {
            return n;
        }
        left = step.left;
    }
    sheet.len()
}
