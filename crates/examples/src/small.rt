// A small game, and a right sheet for it.
ghost use Rattle.std.specs.Prelude.{◌≡◌, None, IfOk};
ghost use Rattle.game.specs.Checking.{checked};
ghost use Rattle.games.specs.Rows.{meaning_of};
ghost use Rattle.examples.specs.Small.{small_positions, small_sheet};

use crate::parts::{entry, row};
use game::sheet::Entry;
use games::rows::Rows;
use std::alloc::{AllocError, Global};

// Four positions. From 0 Green may go round with Red by way of 1, or leave for 2, where Red goes
// round alone; at 3 Green goes round alone.
pub fn small_game(heap: Global) -> Result<Rows, AllocError>
    ensures { IfOk result (λ game. meaning_of game.rows.items game.targets.items ≡ small_positions) }
{
    let rows = vec![in heap;
        row(0, 0, 1, 0, 2),
        row(1, 0, 1, 2, 1),
        row(1, 1, 0, 3, 1),
        row(0, 1, 1, 4, 1),
    ]?;
    let targets = vec![in heap; 1, 2, 0, 2, 3]?;
    Ok(Rows::new(rows, targets).unwrap())
}

// Green wins from 0, by move 1, from 1 and from 2; Red wins from 3.
pub fn right_sheet() -> [Entry; 4]
    ensures sheet { result ≡ small_sheet }
    ensures accepted { checked small_positions result ≡ None }
{
    [
        entry(0, 1, 1),
        entry(0, 0, 2),
        entry(0, 0, 0),
        entry(1, 0, 0),
    ]
}

#[cfg(test)]
mod tests {
    use super::*;
    use crate::sheet::coloured;
    use game::check::check;
    use std::test::Fail;

    // The game is made, its sheet is accepted, and the colouring makes the same one.
    #[test]
    fn the_sheet_is_right(rt: HostRuntime) -> Result<(), Fail> {
        let game = small_game(rt.alloc())?;
        let right = right_sheet();
        assert!(rt; check(&game, &right).is_ok());
        let sheet = coloured(rt.alloc(), &game)?;
        assert!(rt; sheet.as_slice() == right.as_slice());
        Ok(())
    }
}
