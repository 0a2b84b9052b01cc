// How the player says things.
use game::arena::Game;
use game::reads::{degree_of, kind_of, owner_of, target_of};
use game::refusal::Numbered;
use plain::standing::Record;
use play::refusal::CallRefusal;
use std::io;

// The moves of a position, with where they lead.
pub(crate) fn show_moves<G: Game>(rt: &HostRuntime, game: &G, v: usize) -> io::Result<()> {
    if degree_of(game, v) == 0 {
        return println!(rt; " none");
    }
    for k in 0..degree_of(game, v) {
        print!(rt; " ({k}) to {}", target_of(game, v, k))?;
    }
    println!(rt; "")
}

// A game, position by position.
pub(crate) fn show_game<G: Game>(rt: &HostRuntime, game: &G) -> io::Result<()> {
    for v in 0..game.count() {
        let (owner, kind) = (owner_of(game, v), kind_of(game, v));
        print!(rt; "{v}: {owner:?}'s, kind {kind:?}, moves")?;
        show_moves(rt, game, v)?;
    }
    Ok(())
}

// Why a call was refused, in words.
pub(crate) fn show_refusal(rt: &HostRuntime, refusal: CallRefusal) -> io::Result<()> {
    let reason = match refusal {
        CallRefusal::Mismatch => "the turn does not fit this game and sheet",
        CallRefusal::Steps => "the play has made all its steps",
        CallRefusal::Move => "there is no such move here",
    };
    println!(rt; "Refused {}: {reason}.", refusal.number())
}

// The record of a play.
pub(crate) fn show_record(rt: &HostRuntime, record: Record) -> io::Result<()> {
    let Record {
        house,
        position,
        steps,
        entered,
    } = record;
    let guest = house.other();
    println!(rt; "The house was {house:?}. The play stands at {position}.")?;
    println!(rt; "Steps made: {steps}, of which {entered} entered a position of kind {guest:?}.")
}
