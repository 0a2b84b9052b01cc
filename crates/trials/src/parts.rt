// The parts of a case, taken from the front of a file's numbers.
use cases::numbers::Numbers;
use game::refusal::Numbered;
use game::sheet::Entry;
use std::fs;

// What a refusal tells, as it stands in a file: its number, and the position or row that it names, if it
// names one.
#[derive(Clone, Copy, PartialEq, Eq)]
pub(crate) struct Told {
    number: u16,
    place: Option<usize>,
}

impl Told {
    // What a refusal tells, which names this place.
    pub(crate) fn new<E: Numbered + Copy>(refusal: E, place: Option<usize>) -> Told {
        Told {
            number: u16::from(refusal.number()),
            place,
        }
    }
}

// The numbers of a file, apart by white space. It stands in both programs that try cases: a public function of
// a library has to state what it answers, and nothing can be stated of a file.
pub(crate) fn read_numbers(rt: &HostRuntime, path: &str) -> anyhow::Result<Numbers> {
    let text = fs::read_to_string(rt, path)?;
    let numbers = text
        .as_str()
        .split_whitespace()
        .map(|word| -> anyhow::Result<u16> { Ok(word.parse()?) })
        .try_collect(rt.alloc())?;
    Ok(Numbers::new(numbers))
}

// An answer: how many numbers, and these. None for a success; else what the refusal tells.
pub(crate) fn take_answer(numbers: &mut Numbers) -> anyhow::Result<Result<(), Told>> {
    let count = numbers.take()?;
    if count == 0 {
        return Ok(Ok(()));
    }
    Ok(Err(Told {
        number: numbers.take()?,
        place: if count == 1 {
            None
        } else {
            Some(numbers.take()? as usize)
        },
    }))
}

fn take_entry(numbers: &mut Numbers) -> anyhow::Result<Entry> {
    Ok(Entry {
        colour: u8::try_from(numbers.take()?)?,
        choice: numbers.take()?,
        rank: numbers.take()?,
    })
}

// A sheet of a known length, three numbers an entry (colour, choice, rank).
pub(crate) fn take_sheet(
    rt: &HostRuntime,
    numbers: &mut Numbers,
    len: u16,
) -> anyhow::Result<Vec<Entry>> {
    (0..len)
        .map(|_| take_entry(numbers))
        .try_collect(rt.alloc())
}
