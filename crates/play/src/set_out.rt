// Setting out a play.
ghost use Rattle.std.specs.Prelude.{◌≡◌};
ghost use Rattle.plain.specs.Plain.{house_of};
ghost use Rattle.plain.specs.Calls.{set_out_of};
ghost use Rattle.play.specs.Told.{set_out_told};

use crate::board::entry_at;
use crate::refusal::SetOutRefusal;
use crate::turn::{Outcome, Play};
use game::arena::Game;
use game::check::check;
use game::sheet::Entry;
use game::side::Side;
use plain::standing::Record;
use std::marker::PhantomData;

// The side of the sheet's colour at `v`; Green where it is no side's.
fn house_at(sheet: &[Entry], v: usize) -> Side
    ensures { result ≡ house_of sheet.now v }
{
    Side::try_from(entry_at(sheet, v).colour).unwrap_or(Side::Green)
}

// Sets out a play from `start`. The house is the side of the sheet's colour there.
pub fn set_out<G: Game>(game: &G, sheet: &[Entry], start: usize) -> Result<Outcome, SetOutRefusal>
    ensures { set_out_told result ≡ set_out_of (G.Game.meaning game.now) sheet.now start }
{
    if start >= game.count() {
        return Err(SetOutRefusal::Start);
    }
    check(game, sheet)?;
    let play = Play {
        log: Record {
            house: house_at(sheet, start),
            position: start,
            steps: 0,
            entered: 0,
        },
        state: PhantomData,
    };
    Ok(play.outcome(game))
}
