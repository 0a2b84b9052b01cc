// The colouring of a game: the sheet that the rounds define, whatever the slice held before.
ghost use Rattle.std.specs.Prelude.{◌≡◌, ◌-◌, ◌<◌, length, IfOk, if◌then◌else◌, None, Ok, Err, OnOk, nat_eq};
ghost use Rattle.game.specs.declared.refusal.Refusal.TheVariants.{Length};
ghost use Rattle.game.specs.Checking.{checked};
ghost use Rattle.rounds.specs.Rounds.{colouring, rounds_of, highest_ranks};
ghost use Rattle.rounds.specs.Ruled.{RuledByRounds};
ghost use Rattle.solver.specs.Stages.{DoneFrom};

use crate::level::colour_level;
use crate::moves::Settled;
use game::arena::Game;
use game::check::is_sized;
use game::refusal::Refusal;
use game::sheet::Entry;

// The level that comes after the `done` highest of `count`.
fn level_after(count: usize, done: usize) -> usize
    requires { done < count }
    ensures { result ≡ count - 1 - done }
{
    count - 1 - done
}

// Fills in colours and ranks, from the highest level down; how many rounds added something.
fn colour_levels<G: Game>(game: &G, sheet: &mut [Entry]) -> usize
    requires { length sheet.old ≡ length (G.Game.meaning game.now) }
    ensures done { DoneFrom (G.Game.meaning game.now) 0 sheet.new }
    ensures rounds { result ≡ rounds_of (G.Game.meaning game.now) }
    ensures ranks { result ≡ highest_ranks (G.Game.meaning game.now) (colouring (G.Game.meaning game.now)) }
{
    let count = sheet.len();
    let mut rounds = 0;
    // Counted up: over `(0..count).rev()` the colouring took half as long again.
    for done in 0..count {
        rounds += colour_level(game, sheet, level_after(count, done));
    }
    rounds
}

// Fills in the choices, colours and ranks being final.
fn choose<G: Game>(game: &G, sheet: &mut [Entry])
    requires { DoneFrom (G.Game.meaning game.now) 0 sheet.old }
    ensures sheet { sheet.new ≡ colouring (G.Game.meaning game.now) }
    ensures accepted { checked (G.Game.meaning game.now) sheet.new ≡ None }
    ensures ruled { RuledByRounds (G.Game.meaning game.now) sheet.new }
{
    // By index: each choice reads the whole sheet.
    for v in 0..sheet.len() {
        let settled = Settled { game, sheet, v };
        let choice = settled.choice();
        sheet[v].choice = choice;
    }
}

// Fills in the sheet of a game, and answers how many rounds added something. A sheet that has not one
// entry for each position is refused, and stays as it was.
pub fn colour<G: Game>(game: &G, sheet: &mut [Entry]) -> Result<usize, Refusal>
    ensures answer { result ≡ (if nat_eq (length sheet.old) (length (G.Game.meaning game.now)) then Ok (rounds_of (G.Game.meaning game.now)) else Err Length) }
    ensures sheet { sheet.new ≡ (if nat_eq (length sheet.old) (length (G.Game.meaning game.now)) then colouring (G.Game.meaning game.now) else sheet.old) }
    ensures highest_ranks { IfOk result (λ n. n ≡ highest_ranks (G.Game.meaning game.now) sheet.new) }
    ensures accepted { OnOk result (checked (G.Game.meaning game.now) sheet.new ≡ None) }
    ensures ruled { OnOk result (RuledByRounds (G.Game.meaning game.now) sheet.new) }
{
    if !is_sized(game, sheet) {
        return Err(Refusal::Length);
    }
    let rounds = colour_levels(game, sheet);
    choose(game, sheet);
    Ok(rounds)
}
