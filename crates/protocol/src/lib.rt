// How turns are used, in functions that build. What must not build are edits of these, in must-not-build/.
#![tactic(auto)]

ghost use Rattle.std.specs.Prelude.{◌≡◌, is_ok, IfErr};
ghost use Rattle.plain.specs.declared.call.Call.TheVariants.{Go, Reply};
ghost use Rattle.plain.specs.declared.standing.Record.{Record};
ghost use Rattle.plain.specs.Calls.{call_of, set_out_of};
ghost use Rattle.play.specs.Told.{call_told};

use game::arena::Game;
use game::sheet::Entry;
use plain::standing::Record;
use play::refusal::TurnRefused;
use play::set_out::set_out;
use play::turn::{EndedPlay, GuestTurn, HouseTurn, Outcome};

// On a house's turn the sheet answers: the call is go.
pub fn answer<G: Game>(
    game: &G,
    sheet: &[Entry],
    house: HouseTurn,
) -> Result<Outcome, TurnRefused<HouseTurn>>
    ensures answer { call_told result ≡ call_of (G.Game.meaning game.now) sheet.now house.log Go }
    ensures turn { IfErr result (λ e. e.given ≡ house) }
{
    house.go(game, sheet)
}

// On a guest's turn the person answers: the call is reply.
pub fn answer_with<G: Game>(
    game: &G,
    sheet: &[Entry],
    guest: GuestTurn,
    k: usize,
) -> Result<Outcome, TurnRefused<GuestTurn>>
    ensures answer { call_told result ≡ call_of (G.Game.meaning game.now) sheet.now guest.log (Reply k) }
    ensures turn { IfErr result (λ e. e.given ≡ guest) }
{
    guest.reply(game, sheet, k)
}

// An ended play has only its record left.
pub fn record_of(ended: EndedPlay) -> Record
    ensures { result ≡ ended.log }
{
    ended.end()
}

// A house's turn is played once. Whoever wants to go again sets out a new play, at `start`. Returns whether
// the move was made, and whether the new play was set out.
pub fn go_then_set_out<G: Game>(
    game: &G,
    sheet: &[Entry],
    start: usize,
    turn: HouseTurn,
) -> (bool, bool)
    ensures first { result.0 ≡ is_ok (call_of (G.Game.meaning game.now) sheet.now turn.log Go) }
    ensures second { result.1 ≡ is_ok (set_out_of (G.Game.meaning game.now) sheet.now start) }
{
    let gone = turn.go(game, sheet).is_ok();
    let gone_again = set_out(game, sheet, start).is_ok();
    (gone, gone_again)
}

// A guest's turn is played once, too. Returns the same as above.
pub fn reply_then_set_out<G: Game>(
    game: &G,
    sheet: &[Entry],
    start: usize,
    turn: GuestTurn,
    k: usize,
) -> (bool, bool)
    ensures first { result.0 ≡ is_ok (call_of (G.Game.meaning game.now) sheet.now turn.log (Reply k)) }
    ensures second { result.1 ≡ is_ok (set_out_of (G.Game.meaning game.now) sheet.now start) }
{
    let replied = turn.reply(game, sheet, k).is_ok();
    let replied_again = set_out(game, sheet, start).is_ok();
    (replied, replied_again)
}

// End takes the turn too. To play on from where it stood, one sets out a new play there. Returns how many
// steps the ended play had made, and whether the new play was set out.
pub fn end_then_set_out<G: Game>(game: &G, sheet: &[Entry], turn: HouseTurn) -> (u16, bool)
    ensures first { result.0 ≡ turn.log.steps }
    ensures second { result.1 ≡ is_ok (set_out_of (G.Game.meaning game.now) sheet.now turn.log.position) }
{
    let record = turn.end();
    let plays_on = set_out(game, sheet, record.position).is_ok();
    (record.steps, plays_on)
}
