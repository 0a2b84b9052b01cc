// The parts of a case, taken from the front of a file's numbers.
use anyhow::bail;
use cases::fault::Brief;
use cases::numbers::Numbers;
use cases::parts::take_side;
use plain::call::Call;
use plain::standing::{Record, Turn};
use std::alloc::Global;
use std::fs;

// A play, and what comes of it: the number of each call's refusal, if it is refused, the record and how it
// stands at the end. The calls stand in a list of their own, since `play_calls` takes a slice
// of calls.
#[derive(Drop)]
pub(crate) struct PlayCase {
    pub(crate) start: usize,
    pub(crate) calls: Vec<Call>,
    pub(crate) refusals: Vec<Option<u16>>,
    pub(crate) record: Record,
    pub(crate) turn: Turn,
}

// The numbers of a file, apart by white space. It stands in both programs that try cases: a public function of
// a library has to state what it answers, and nothing can be stated of a file.
pub(crate) fn read_numbers(rt: &HostRuntime, path: &str) -> anyhow::Result<Numbers> {
    let text = fs::read_to_string(rt, path)?;
    let numbers = text
        .as_str()
        .split_whitespace()
        .map(|word| -> anyhow::Result<u16> { Ok(word.parse()?) })
        .try_collect(rt.alloc())?;
    Ok(Numbers::new(numbers))
}

// The turn that a file writes as 0, 1 or 2. These numbers are the file's alone, so the type has none.
fn take_turn(numbers: &mut Numbers) -> anyhow::Result<Turn> {
    match numbers.take()? {
        0 => Ok(Turn::House),
        1 => Ok(Turn::Guest),
        2 => Ok(Turn::Ended),
        _ => bail!("no turn"),
    }
}

fn take_record(numbers: &mut Numbers) -> anyhow::Result<Record> {
    Ok(Record {
        house: take_side(numbers).map_err(Brief)?,
        position: numbers.take()? as usize,
        steps: numbers.take()?,
        entered: numbers.take()?,
    })
}

fn take_call(numbers: &mut Numbers) -> anyhow::Result<Call> {
    Ok(match numbers.take()? {
        0 => Call::Go,
        number => Call::Reply(number as usize - 1),
    })
}

fn take_refusal(numbers: &mut Numbers) -> anyhow::Result<Option<u16>> {
    Ok(match numbers.take()? {
        0 => None,
        number => Some(number),
    })
}

pub(crate) fn take_play(heap: Global, numbers: &mut Numbers) -> anyhow::Result<PlayCase> {
    let start = numbers.take()? as usize;
    let mut calls = Vec::new(heap);
    let mut refusals = Vec::new(heap);
    // Two lists at once, so no `try_collect`.
    for _ in 0..numbers.take()? {
        calls.push(take_call(numbers)?)?;
        refusals.push(take_refusal(numbers)?)?;
    }
    Ok(PlayCase {
        start,
        calls,
        refusals,
        record: take_record(numbers)?,
        turn: take_turn(numbers)?,
    })
}
