// Plays on row games with their colouring's sheet, each with the answers of another checker, and each
// on the swapped game too.
//
// A case is: the two lists of a game; how many plays there are; and for each play the start, how many
// calls there are, for each call two numbers (0 for go and k + 1 for reply k; 0 where it is made, else
// the number of its refusal), the record (house, position, steps, entered), and how it stands at the end
// (0 the house's turn, 1 the guest's, 2 ended).
use crate::parts::{PlayCase, read_numbers, take_play};
use cases::fault::Brief;
use cases::numbers::Numbers;
use cases::parts::take_game;
use cases::tally::Tally;
use cases::trying::Cases;
use examples::sheet::coloured;
use game::arena::Game;
use game::refusal::Numbered;
use games::rows::Rows;
use games::swapped::Swapped;
use plain::standing::{Record, Turn};
use play::calls::{Answer, play_calls};
use play::refusal::CallRefusal;

// What is left of a file of plays, and the tallies of its cases.
#[derive(Drop)]
struct PlayCases<'a> {
    rt: &'a HostRuntime,
    numbers: Numbers,
    plays: Tally,
    swapped: Tally,
}

// Whether each answer is the expected one, by the refusal's number.
fn same_refusals(answers: &[Answer], expected: &[Option<u16>]) -> bool {
    answers.len() == expected.len()
        && answers.iter().zip(expected.iter()).all(|(answer, number)| answer
            .err()
            .map(|refusal| u16::from(refusal.number()))
            == *number)
}

// Whose turn it is after some answers.
fn turn_after(first: Turn, answers: &[Answer]) -> Turn {
    answers
        .iter()
        .filter_map(|answer| answer.ok())
        .last()
        .map_or(first, |standing| standing.turn)
}

// Whether a play goes as expected. The list of answers holds nonsense before.
fn is_played<G: Game>(
    rt: &HostRuntime,
    game: &G,
    case: &PlayCase,
    record: Record,
) -> anyhow::Result<bool> {
    let sheet = coloured(rt.alloc(), game)?;
    let nonsense: Answer = Err(CallRefusal::Mismatch);
    let mut answers = vec![in rt.alloc(); nonsense; case.calls.len()]?;
    let Ok(played) = play_calls(game, &sheet, case.start, &case.calls, &mut answers) else {
        return Ok(false);
    };
    Ok(
        played.made == case.calls.len()
            && same_refusals(&answers, &case.refusals)
            && turn_after(played.first.turn, &answers) == case.turn
            && played.at_end == record,
    )
}

// The record of the same play on the swapped game: the other side is the house.
fn exchanged(record: Record) -> Record {
    Record {
        house: record.house.other(),
        ..record
    }
}

impl<'a> PlayCases<'a> {
    // The plays of a game: how many there are, and these.
    fn take_plays(&mut self) -> anyhow::Result<Vec<PlayCase>> {
        let heap = self.rt.alloc();
        let count = self.numbers.take()?;
        (0..count)
            .map(|_| take_play(heap, &mut self.numbers))
            .try_collect(heap)
    }

    // The same plays on the swapped game.
    fn try_swapped(&mut self, game: &Swapped<Rows>, cases: &[PlayCase]) -> anyhow::Result<()> {
        for case in cases {
            let same = is_played(self.rt, game, case, exchanged(case.record))?;
            self.swapped.note(self.rt, same)?;
        }
        Ok(())
    }
}

impl<'a> Cases for PlayCases<'a> {
    type Fault = anyhow::Error;

    ghost left = { λ cases. cases.numbers };

    fn is_done(&self) -> bool {
        self.numbers.is_done()
    }

    fn try_case(&mut self) -> anyhow::Result<()> {
        let rt = self.rt;
        let game = take_game(rt.alloc(), &mut self.numbers).map_err(Brief)?;
        let cases = self.take_plays()?;
        for case in &cases {
            let same = is_played(rt, &game, case, case.record)?;
            self.plays.note(rt, same)?;
        }
        self.try_swapped(&Swapped::new(game), &cases)
    }
}

// Tries every play of a file, and prints how many there were and which differ.
pub(crate) fn try_plays(rt: &HostRuntime, path: &str) -> anyhow::Result<()> {
    let mut cases = PlayCases {
        rt,
        numbers: read_numbers(rt, path)?,
        plays: Tally::new("plays"),
        swapped: Tally::new("plays of swapped games"),
    };
    cases.try_all()?;
    println!(rt; "{}", cases.plays)?;
    println!(rt; "{}", cases.swapped)?;
    Ok(())
}
