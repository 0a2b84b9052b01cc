// A tour of the library on a small game: make it, certify who wins where, see damaged sheets refused,
// have the sheet filled in, and build larger games of it.
#![tactic(auto)]

mod damage;
mod show;

use damage::{damage, sheet_with};
use examples::sheet::coloured;
use examples::small::{right_sheet, small_game};
use game::arena::Game;
use game::check::check;
use game::sheet::Entry;
use game::side::Side;
use games::pair::Pair;
use games::rows::Rows;
use games::swapped::Swapped;
use show::{show_game, show_winners};
use solver::colour::colour;

fn main(rt: HostRuntime) -> anyhow::Result<()> {
    tour(&rt)
}

fn tour(rt: &HostRuntime) -> anyhow::Result<()> {
    let game = small_game(rt.alloc())?;
    show_checks(rt, &game)?;
    println!(rt; "The colouring fills in a sheet by itself:")?;
    show_colouring(rt, &game)?;
    println!(rt; "With the sides exchanged the other side wins everywhere:")?;
    show_colouring(rt, &Swapped::new(game))?;
    println!(rt; "A head that leads to 0, which Green wins, and to 3, which Red wins:")?;
    show_pair(rt, Side::Green)?;
    show_pair(rt, Side::Red)
}

// The right sheet for the game, and what becomes of damaged ones.
fn show_checks(rt: &HostRuntime, game: &Rows) -> anyhow::Result<()> {
    show_game(rt, game)?;
    let sheet = right_sheet();
    check(game, &sheet)?;
    println!(rt; "Its sheet is accepted, so it says who wins:")?;
    show_winners(rt, game, &sheet)?;
    println!(rt; "Damaged sheets are refused:")?;
    show_damage(rt, game, "the last entry left out", &sheet[0..3])?;
    for (v, name, entry) in damage() {
        show_damage(rt, game, name, &sheet_with(v, entry))?;
    }
    Ok(())
}

fn show_damage(rt: &HostRuntime, game: &Rows, name: &str, sheet: &[Entry]) -> anyhow::Result<()> {
    match check(game, sheet) {
        Ok(()) => println!(rt; "  {name}: accepted")?,
        Err(refusal) => println!(rt; "  {name}: {refusal}")?,
    }
    Ok(())
}

// Colours a game, and says who wins where.
fn show_colouring<G: Game>(rt: &HostRuntime, game: &G) -> anyhow::Result<()> {
    let mut sheet = vec![in rt.alloc(); Entry::default(); game.count()]?;
    let rounds = colour(game, &mut sheet)?;
    println!(rt; "  {rounds} rounds added something")?;
    check(game, &sheet)?;
    show_winners(rt, game, &sheet)?;
    Ok(())
}

// Two of the game under a head of a side's, that leads to position 0 of the one and 3 of the other.
fn show_pair(rt: &HostRuntime, owner: Side) -> anyhow::Result<()> {
    let first = small_game(rt.alloc())?;
    let second = small_game(rt.alloc())?;
    let pair = Pair::new(owner, first, 0, second, 3)?;
    let sheet = coloured(rt.alloc(), &pair)?;
    check(&pair, &sheet)?;
    if let Some(head) = sheet.first() {
        let winner = Side::try_from(head.colour)?;
        println!(rt; "  {owner:?}'s head: {winner:?} wins from it")?;
    }
    Ok(())
}
