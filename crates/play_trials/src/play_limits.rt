// Plays at their limits: the most steps, and turns that do not fit the game or the sheet.
use anyhow::bail;
use examples::parts::row;
use examples::sheet::coloured;
use game::sheet::Entry;
use game::side::Side;
use games::rows::Rows;
use plain::call::Call;
use play::calls::{Answer, play_calls};
use play::refusal::{CallRefusal, TurnRefused};
use play::set_out::set_out;
use play::turn::{GuestTurn, HouseTurn, Outcome};

// Rows of kind Green, each moving to itself alone; the first is `owner`'s, the others are Green's.
fn loops(rt: &HostRuntime, owner: Side, count: u16) -> anyhow::Result<Rows> {
    let rows = (0..count)
        .map(|i| {
            let side = if i == 0 { owner } else { Side::Green };
            row(u8::from(side).into(), 0, 0, i, 1)
        })
        .collect(rt.alloc())?;
    let targets = (0..count).collect(rt.alloc())?;
    Ok(Rows::new(rows, targets)?)
}

// A play that goes round at one position for 65,535 steps, and two calls more.
fn try_steps(
    rt: &HostRuntime,
    name: &str,
    owner: Side,
    call: Call,
    last: Call,
) -> anyhow::Result<()> {
    let game = loops(rt, owner, 1)?;
    let sheet = coloured(rt.alloc(), &game)?;
    let mut calls = vec![in rt.alloc(); call; 65536]?;
    calls.push(last)?;
    let nonsense: Answer = Err(CallRefusal::Mismatch);
    let mut answers = vec![in rt.alloc(); nonsense; calls.len()]?;
    let played = play_calls(&game, &sheet, 0, &calls, &mut answers)?;
    for (i, answer) in answers.iter().enumerate().skip(65533) {
        match answer {
            Ok(standing) => println!(rt; "{name}, call {i}: {} steps made", standing.log.steps)?,
            Err(refusal) => println!(rt; "{name}, call {i}: {refusal}")?,
        }
    }
    println!(rt;
        "{name}: {} steps, {} entered",
        played.at_end.steps, played.at_end.entered
    )?;
    Ok(())
}

// A house's turn at position `at`. One function for this and the next would take a closure at each of the
// seven calls, and be no plainer.
fn house_turn(game: &Rows, sheet: &[Entry], at: usize) -> anyhow::Result<HouseTurn> {
    match set_out(game, sheet, at)? {
        Outcome::House(turn) => Ok(turn),
        Outcome::Guest(_) | Outcome::Ended(_) => bail!("no house's turn"),
    }
}

// A guest's turn at position `at`.
fn guest_turn(game: &Rows, sheet: &[Entry], at: usize) -> anyhow::Result<GuestTurn> {
    match set_out(game, sheet, at)? {
        Outcome::Guest(turn) => Ok(turn),
        Outcome::House(_) | Outcome::Ended(_) => bail!("no guest's turn"),
    }
}

fn show_outcome<T: Drop>(
    rt: &HostRuntime,
    name: &str,
    called: Result<Outcome, TurnRefused<T>>,
) -> anyhow::Result<()> {
    match called {
        Ok(_) => println!(rt; "{name}: made")?,
        Err(e) => println!(rt; "{name}: {e}")?,
    }
    Ok(())
}

// Go and reply with the game and the sheet that the play was set out with, and with others.
fn try_misfits(rt: &HostRuntime) -> anyhow::Result<()> {
    let game = loops(rt, Side::Red, 2)?;
    let sheet = coloured(rt.alloc(), &game)?;
    let other = loops(rt, Side::Green, 2)?;
    let smaller = loops(rt, Side::Green, 1)?;
    let short = coloured(rt.alloc(), &smaller)?;
    let house = house_turn(&game, &sheet, 1)?;
    show_outcome(rt, "go", house.go(&game, &sheet))?;
    let house = house_turn(&game, &sheet, 1)?;
    show_outcome(rt, "go with a shorter sheet", house.go(&game, &short))?;
    let house = house_turn(&game, &sheet, 1)?;
    show_outcome(rt, "go with a smaller game", house.go(&smaller, &short))?;
    let guest = guest_turn(&game, &sheet, 0)?;
    show_outcome(rt, "reply 0", guest.reply(&game, &sheet, 0))?;
    let guest = guest_turn(&game, &sheet, 0)?;
    show_outcome(rt, "reply 1", guest.reply(&game, &sheet, 1))?;
    let guest = guest_turn(&game, &sheet, 0)?;
    show_outcome(
        rt,
        "reply with a game of another owner",
        guest.reply(&other, &sheet, 0),
    )?;
    let guest = guest_turn(&game, &sheet, 0)?;
    show_outcome(
        rt,
        "reply with a shorter sheet",
        guest.reply(&game, &short, 0),
    )
}

pub(crate) fn try_limits(rt: &HostRuntime) -> anyhow::Result<()> {
    try_steps(rt, "go", Side::Green, Call::Go, Call::Go)?;
    try_steps(rt, "reply", Side::Red, Call::Reply(0), Call::Reply(1))?;
    try_misfits(rt)
}
