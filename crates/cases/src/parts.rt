// A side and a game, taken from the front of a file's numbers.
ghost use Rattle.std.specs.Prelude.{◌≡◌, ◌<◌, ◌++◌, ◌⊎◌, length, IfOk, IfErr, Err};
ghost use Rattle.cases.specs.declared.fault.CaseFault.TheVariants.{Ended, OutOfMemory};
ghost use Rattle.cases.specs.Lists.{numbers_of_lists, length_of_lists, MakeNoGame};
ghost use Rattle.cases.specs.Sides.{side_taken};

use crate::fault::CaseFault;
use crate::lists::take_lists;
use crate::numbers::Numbers;
use game::side::Side;
use games::rows::Rows;
use std::alloc::Global;

// A side, by its number. It is read by a match, since `Side` converts from a byte, and a number that fits none
// is to be told whole.
pub fn take_side(numbers: &mut Numbers) -> Result<Side, CaseFault>
    ensures { (result, numbers.new) ≡ side_taken numbers.old }
{
    match numbers.take()? {
        0 => Ok(Side::Green),
        1 => Ok(Side::Red),
        number => Err(CaseFault::NoSide(number)),
    }
}

// A game, by its two lists. Nothing is said of what is left after a fault.
pub fn take_game(heap: Global, numbers: &mut Numbers) -> Result<Rows, CaseFault>
    ensures game { IfOk result (λ game. numbers.old ≡ numbers_of_lists game.rows.items game.targets.items ++ numbers.new) }
    ensures ended { result ≡ Err Ended → length numbers.old < length_of_lists numbers.old }
    ensures only { IfErr result (λ e. (e ≡ Ended) ⊎ ((e ≡ OutOfMemory) ⊎ MakeNoGame numbers.old numbers.new e)) }
{
    let (rows, targets) = take_lists(heap, numbers)?;
    Ok(Rows::new(rows, targets)?)
}

#[cfg(test)]
mod tests {
    use super::*;
    use games::row::{Row, RowsFault};
    use std::test::Fail;

    // A game of one row that moves to itself, whose owner is Red.
    fn one_red_row() -> Row {
        Row {
            owner: 1,
            level: 0,
            kind: 0,
            first: 0,
            count: 1,
        }
    }

    // Sides and a game succeed where their numbers are there, and leave the numbers after them.
    #[test]
    fn parts_are_taken(rt: HostRuntime) -> Result<(), Fail> {
        let list = vec![in rt.alloc(); 1, 0, 1, 1, 1, 0, 0, 0, 1, 0, 2]?;
        let mut numbers = Numbers::new(list);
        assert!(rt; take_side(&mut numbers)? == Side::Red);
        assert!(rt; take_side(&mut numbers)? == Side::Green);
        let (rows, targets) = take_game(rt.alloc(), &mut numbers)?.into_lists();
        assert!(rt; rows.as_slice() == [one_red_row()].as_slice());
        assert!(rt; targets.as_slice() == [0].as_slice());
        assert!(rt; take_side(&mut numbers) == Err(CaseFault::NoSide(2)));
        assert!(rt; numbers.is_done());
        Ok(())
    }

    // Two lists without a row make no game.
    #[test]
    fn no_game_is_told(rt: HostRuntime) -> Result<(), Fail> {
        let mut numbers = Numbers::new(vec![in rt.alloc(); 0, 0]?);
        let fault = take_game(rt.alloc(), &mut numbers).err();
        assert!(rt; fault == Some(CaseFault::NoGame(RowsFault::Count)));
        assert!(rt; numbers.is_done());
        Ok(())
    }
}
