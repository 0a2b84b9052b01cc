// The two lists of a game, taken from the front of a file's numbers.
ghost use Rattle.std.specs.Prelude.{◌≡◌, ◌+◌, ◌*◌, ◌<◌, ◌++◌, ◌⊎◌, length, IfOk, IfErr, OnOk, Err};
ghost use Rattle.std.specs.List.{flat_map};
ghost use Rattle.cases.specs.declared.fault.CaseFault.TheVariants.{Ended, OutOfMemory};
ghost use Rattle.cases.specs.Lists.{numbers_of, numbers_of_lists, length_of_lists};

use crate::fault::CaseFault;
use crate::numbers::Numbers;
use games::row::Row;
use std::alloc::Global;

// A row, five numbers: owner, level, kind, first and count.
fn take_row(numbers: &mut Numbers) -> Result<Row, CaseFault>
    ensures row { IfOk result (λ row. numbers.old ≡ numbers_of row ++ numbers.new) }
    ensures ended { IfErr result (λ e. (e ≡ Ended) × (length numbers.old < 5)) }
{
    Ok(Row {
        owner: numbers.take()?,
        level: numbers.take()?,
        kind: numbers.take()?,
        first: numbers.take()?,
        count: numbers.take()?,
    })
}

// As many rows. It is a loop: of what the closure of a chain borrowed and changed, here the numbers, nothing is
// known once the chain is done.
fn take_rows(heap: Global, numbers: &mut Numbers, count: u16) -> Result<Vec<Row>, CaseFault>
    ensures len { IfOk result (λ rows. length rows.items ≡ count) }
    ensures rows { IfOk result (λ rows. numbers.old ≡ flat_map numbers_of rows.items ++ numbers.new) }
    ensures five_each { OnOk result (length numbers.old ≡ 5 * count + length numbers.new) }
    ensures ended { result ≡ Err Ended → length numbers.old < 5 * count }
    ensures only { IfErr result (λ e. (e ≡ Ended) ⊎ (e ≡ OutOfMemory)) }
{
    let mut rows = Vec::new(heap);
    for _ in 0..count {
        rows.push(take_row(numbers)?)?;
    }
    Ok(rows)
}

// As many targets. It is the loop of `take_rows` with one number for each item in place of five. One function for
// both would be given what takes an item, and its contract would have to say of that which numbers stand for the
// item and when they are too few: more text than the second loop.
fn take_targets(heap: Global, numbers: &mut Numbers, count: u16) -> Result<Vec<u16>, CaseFault>
    ensures len { IfOk result (λ targets. length targets.items ≡ count) }
    ensures targets { IfOk result (λ targets. numbers.old ≡ targets.items ++ numbers.new) }
    ensures ended { result ≡ Err Ended → length numbers.old < count }
    ensures only { IfErr result (λ e. (e ≡ Ended) ⊎ (e ≡ OutOfMemory)) }
{
    let mut targets = Vec::new(heap);
    for _ in 0..count {
        targets.push(numbers.take()?)?;
    }
    Ok(targets)
}

// Two lists: how many rows and how many targets there are, the rows, and the targets. Nothing is said of
// what is left after a fault.
pub fn take_lists(heap: Global, numbers: &mut Numbers) -> Result<(Vec<Row>, Vec<u16>), CaseFault>
    ensures lists { IfOk result (λ l. numbers.old ≡ numbers_of_lists l.0.items l.1.items ++ numbers.new) }
    ensures ended { result ≡ Err Ended → length numbers.old < length_of_lists numbers.old }
    ensures only { IfErr result (λ e. (e ≡ Ended) ⊎ (e ≡ OutOfMemory)) }
{
    let row_count = numbers.take()?;
    let target_count = numbers.take()?;
    let rows = take_rows(heap, numbers, row_count)?;
    let targets = take_targets(heap, numbers, target_count)?;
    Ok((rows, targets))
}

#[cfg(test)]
mod tests {
    use super::*;
    use std::test::Fail;

    // The two lists succeed where their numbers are there, and leave the numbers after them.
    #[test]
    fn lists_are_taken(rt: HostRuntime) -> Result<(), Fail> {
        let mut numbers = Numbers::new(vec![in rt.alloc(); 1, 2, 0, 3, 1, 0, 2, 7, 8, 9]?);
        let (rows, targets) = take_lists(rt.alloc(), &mut numbers)?;
        let row = Row {
            owner: 0,
            level: 3,
            kind: 1,
            first: 0,
            count: 2,
        };
        assert!(rt; rows.as_slice() == [row].as_slice());
        assert!(rt; targets.as_slice() == [7, 8].as_slice());
        assert_eq!(rt; numbers.take()?, 9);
        assert!(rt; numbers.is_done());
        Ok(())
    }
}
