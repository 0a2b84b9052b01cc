// The worked cases of the rules: shown of the definitions, and run.
ghost use Rattle.std.specs.Prelude.{◌≡◌, [], ◌∷◌};
ghost use Rattle.trials.specs.Worked.{one_row, OneRowCase, PairCase};

use examples::parts::{entry, row};
use game::arena::Game;
use game::check::check;
use game::side::Side;
use games::pair::Pair;
use games::row::{Row, RowsRefused};
use games::rows::Rows;
use solver::colour::colour;
use std::alloc::AllocError;

// The row of the one-row case: Green's, level 0, kind Red, moving to itself.
pub fn one_row() -> Row
    ensures row { result ∷ [] ≡ one_row }
    ensures worked { OneRowCase }
    ensures paired { PairCase }
{
    Row {
        owner: 0,
        level: 0,
        kind: 1,
        first: 0,
        count: 1,
    }
}

// The one-row case: what the check answers for three sheets.
pub(crate) fn try_one_row(rt: &HostRuntime) -> anyhow::Result<()> {
    let rows = vec![in rt.alloc(); one_row()]?;
    let targets = vec![in rt.alloc(); 0u16]?;
    let game = Rows::new(rows, targets)?;
    for (colour, choice, rank) in [(1u8, 0u16, 0u16), (0, 0, 5), (0, 0, 0)] {
        print!(rt; "one row, entry ({colour}, {choice}, {rank}): ")?;
        match check(&game, &[entry(colour, choice, rank)]) {
            Ok(()) => println!(rt; "accepted")?,
            Err(refusal) => println!(rt; "{refusal}")?,
        }
    }
    Ok(())
}

// A row game of `count` rows, each Green's and without moves, or why they make none.
fn plain_rows(rt: &HostRuntime, count: usize) -> Result<Result<Rows, RowsRefused>, AllocError> {
    let rows = vec![in rt.alloc(); row(0, 0, 0, 0, 0); count]?;
    Ok(Rows::new(rows, Vec::new(rt.alloc())))
}

// How many rows make a game.
pub(crate) fn try_count(rt: &HostRuntime, count: usize) -> anyhow::Result<()> {
    match plain_rows(rt, count)? {
        Ok(_) => println!(rt; "{count} rows: a game")?,
        Err(e) => println!(rt; "{count} rows: {e}")?,
    }
    Ok(())
}

// How many positions make a pair: games of `n` and `m`, and position `p` of the first.
pub(crate) fn try_pair_count(rt: &HostRuntime, n: usize, p: usize, m: usize) -> anyhow::Result<()> {
    print!(rt; "pair of {n}, at {p}, and {m}, at 0: ")?;
    match Pair::new(Side::Green, plain_rows(rt, n)??, p, plain_rows(rt, m)??, 0) {
        Ok(pair) => println!(rt; "{} positions", pair.count())?,
        Err(e) => println!(rt; "{e}")?,
    }
    Ok(())
}

// The colouring of a sheet that is one entry too long: refused, and the sheet stays as it was.
pub(crate) fn try_length(rt: &HostRuntime) -> anyhow::Result<()> {
    let game = plain_rows(rt, 1)??;
    let before = [entry(7, 7, 7); 2];
    let mut sheet = before;
    print!(rt; "two entries for one position: ")?;
    match colour(&game, &mut sheet) {
        Ok(rounds) => println!(rt; "{rounds} rounds")?,
        Err(refusal) => println!(rt; "{refusal}")?,
    }
    let kept = sheet == before;
    println!(rt; "the sheet stays as it was: {kept}")?;
    Ok(())
}
