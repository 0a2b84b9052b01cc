// How the tour prints games and winners.
use game::arena::Game;
use game::reads::{degree_of, kind_of, level_of, owner_of, target_of};
use game::sheet::Entry;
use game::side::Side;
use std::io;

// A game, position by position.
pub(crate) fn show_game<G: Game>(rt: &HostRuntime, game: &G) -> io::Result<()> {
    println!(rt; "A game of {} positions:", game.count())?;
    for v in 0..game.count() {
        let (owner, level, kind) = (owner_of(game, v), level_of(game, v), kind_of(game, v));
        print!(rt; "  {v}: {owner:?}'s, level {level}, kind {kind:?}, moves to")?;
        show_moves(rt, game, v)?;
    }
    Ok(())
}

fn show_moves<G: Game>(rt: &HostRuntime, game: &G, v: usize) -> io::Result<()> {
    for k in 0..degree_of(game, v) {
        print!(rt; " {}", target_of(game, v, k))?;
    }
    println!(rt; "")
}

// Who wins from each position by an accepted sheet, and how.
pub(crate) fn show_winners<G: Game>(rt: &HostRuntime, game: &G, sheet: &[Entry]) -> io::Result<()> {
    for (v, entry) in sheet.iter().enumerate() {
        let Ok(winner) = Side::try_from(entry.colour) else {
            continue;
        };
        if winner == owner_of(game, v) {
            let w = target_of(game, v, entry.choice as usize);
            println!(rt; "  from {v} {winner:?} wins, by moving to {w}")?;
        } else {
            println!(rt; "  from {v} {winner:?} wins, whatever the other side does there")?;
        }
    }
    Ok(())
}
