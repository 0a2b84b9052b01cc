// Times the colouring and the check on large games. The rounds go to standard output, the times, which vary, to standard error.
#![tactic(auto)]

use examples::parts::row;
use game::arena::Game;
use game::check::check;
use game::sheet::Entry;
use games::rows::Rows;
use solver::colour::colour;
use std::time::Instant;

fn main(rt: HostRuntime) -> anyhow::Result<()> {
    run(&rt)
}

fn run(rt: &HostRuntime) -> anyhow::Result<()> {
    time_game(rt, "chain of 16384", &chain(rt, 16384)?)?;
    time_game(rt, "4096 with 1024 moves each", &wide(rt, 4096, 1024)?)
}

// A chain in one level of kind Red: each position is Green's and moves to the next, and Red has no
// move at the last. Each round takes one position, from the last to the first.
fn chain(rt: &HostRuntime, len: u16) -> anyhow::Result<Rows> {
    let mut rows: Vec<_> = (1..len)
        .map(|i| row(0, 0, 1, i - 1, 1))
        .collect(rt.alloc())?;
    rows.push(row(1, 0, 1, 0, 0))?;
    let targets = (1..len).collect(rt.alloc())?;
    Ok(Rows::new(rows, targets)?)
}

// One level of kind Red: each position is Green's and moves to the first `count` positions, so that every
// move is looked at and nothing is taken.
fn wide(rt: &HostRuntime, len: u16, count: u16) -> anyhow::Result<Rows> {
    let rows = vec![in rt.alloc(); row(0, 0, 1, 0, count); len as usize]?;
    let targets = (0..count).collect(rt.alloc())?;
    Ok(Rows::new(rows, targets)?)
}

fn time_game(rt: &HostRuntime, name: &str, game: &Rows) -> anyhow::Result<()> {
    let mut sheet = vec![in rt.alloc(); Entry::default(); game.count()]?;
    let start = Instant::now(rt)?;
    let rounds = colour(game, &mut sheet)?;
    let coloured = start.elapsed(rt)?.as_millis();
    let start = Instant::now(rt)?;
    let accepted = check(game, &sheet).is_ok();
    let checked = start.elapsed(rt)?.as_millis();
    println!(rt; "{name}: {rounds} rounds, accepted: {accepted}")?;
    eprintln!(rt; "{name}: colouring {coloured} ms, check {checked} ms")?;
    Ok(())
}
