// The sheet of a game.
ghost use Rattle.std.specs.Prelude.{◌≡◌, IfOk};
ghost use Rattle.rounds.specs.Rounds.{colouring};

use game::arena::Game;
use game::sheet::Entry;
use solver::colour::colour;
use std::alloc::{AllocError, Global};

// The sheet that the colouring of a game makes.
pub fn coloured<G: Game>(heap: Global, game: &G) -> Result<Vec<Entry>, AllocError>
    ensures { IfOk result (λ sheet. sheet.items ≡ colouring (G.Game.meaning game.now)) }
{
    let mut sheet = vec![in heap; Entry::default(); game.count()]?;
    // The sheet has an entry for each position, so it is not refused.
    let _ = colour(game, &mut sheet);
    Ok(sheet)
}
