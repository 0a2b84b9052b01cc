// A play on the game of the tour, by a list of calls.
use game::arena::Game;
use game::sheet::Entry;
use plain::call::Call;
use plain::standing::{Record, Standing, Turn};
use play::calls::{Answer, play_calls};
use play::refusal::CallRefusal;
use std::io;

fn show_standing(rt: &HostRuntime, standing: Standing) -> io::Result<()> {
    let at = standing.log.position;
    match standing.turn {
        Turn::House => println!(rt; "at {at}, the house's turn"),
        Turn::Guest => println!(rt; "at {at}, the guest's turn"),
        Turn::Ended => println!(rt; "at {at}, the play has ended"),
    }
}

fn show_answer(rt: &HostRuntime, call: Call, answer: Answer) -> io::Result<()> {
    match call {
        Call::Go => print!(rt; "  go: ")?,
        Call::Reply(k) => print!(rt; "  reply {k}: ")?,
    }
    match answer {
        Ok(standing) => show_standing(rt, standing),
        Err(refusal) => println!(rt; "{refusal}"),
    }
}

fn show_record(rt: &HostRuntime, record: Record) -> io::Result<()> {
    let Record {
        house,
        position,
        steps,
        entered,
    } = record;
    println!(rt;
        "  record: house {house:?}, at {position}, {steps} steps, {entered} to the guest's kind"
    )
}

// Five calls from position 1. The last does not come on the guest's turn, so it is not made.
pub(crate) fn show_play<G: Game>(
    rt: &HostRuntime,
    game: &G,
    sheet: &[Entry],
) -> anyhow::Result<()> {
    let calls = [
        Call::Reply(0),
        Call::Go,
        Call::Reply(0),
        Call::Reply(5),
        Call::Go,
    ];
    let mut answers = [Err(CallRefusal::Mismatch); 5];
    let played = play_calls(game, sheet, 1, &calls, &mut answers)?;
    print!(rt; "  set out: ")?;
    show_standing(rt, played.first)?;
    for (call, answer) in calls.iter().zip(answers.iter()).take(played.made) {
        show_answer(rt, *call, *answer)?;
    }
    show_record(rt, played.at_end)?;
    Ok(())
}
