// The right sheet of the small game, damaged.
use examples::parts::entry;
use examples::small::right_sheet;
use game::sheet::Entry;

// The right sheet with another entry at `v`.
pub(crate) fn sheet_with(v: usize, entry: Entry) -> [Entry; 4] {
    let mut sheet = right_sheet();
    if let Some(e) = sheet.get_mut(v) {
        *e = entry;
    }
    sheet
}

// Entries that break the sheet: the position, what is wrong, and the entry.
pub(crate) fn damage() -> [(usize, &'static str, Entry); 5] {
    [
        (3, "no side's colour at 3", entry(7, 0, 0)),
        (0, "no such move at 0", entry(0, 2, 1)),
        (2, "the other colour at 2", entry(1, 0, 0)),
        (1, "no rank at 1", entry(0, 0, 0)),
        (0, "going round from 0", entry(0, 0, 1)),
    ]
}
