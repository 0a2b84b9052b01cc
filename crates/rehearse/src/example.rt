// The game that is played.
use examples::parts::row;
use games::rows::Rows;
use std::alloc::Global;

// Six positions. Red wins from 0: Green may pass 2 once, then Red goes round for ever by way of 1 and 3,
// unless Green leaves for 5 and is stuck there. At 4 Red would be stuck, so the sheet never goes there.
pub(crate) fn example_game(heap: Global) -> anyhow::Result<Rows> {
    let rows = vec![in heap;
        row(0, 0, 0, 0, 2),
        row(1, 1, 1, 2, 2),
        row(0, 0, 0, 4, 2),
        row(0, 1, 1, 6, 2),
        row(1, 1, 1, 8, 0),
        row(0, 1, 1, 8, 0),
    ]?;
    let targets = vec![in heap; 1, 2, 4, 3, 1, 5, 1, 5]?;
    Ok(Rows::new(rows, targets)?)
}
