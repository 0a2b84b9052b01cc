// The call on a house's turn.
ghost use Rattle.std.specs.Prelude.{◌≡◌, ◌<◌, IfOk, IfErr};
ghost use Rattle.game.specs.Positions.{target};
ghost use Rattle.game.specs.Sheets.{entry_of};
ghost use Rattle.game.specs.Refusals.{told};
ghost use Rattle.plain.specs.declared.call.Call.TheVariants.{Go};
ghost use Rattle.plain.specs.Plain.{most_steps};
ghost use Rattle.plain.specs.Calls.{call_refusal, call_of};
ghost use Rattle.play.specs.Told.{call_tells, call_told};

use crate::board::{Board, entry_at, has_most_steps};
use crate::refusal::{CallRefusal, TurnRefused};
use crate::turn::{HouseTurn, Outcome};
use game::arena::Game;
use game::reads::target_of;
use game::sheet::Entry;
use plain::standing::Record;

impl<'a, G: Game> Board<'a, G> {
    // Where go leads on a turn with a given record, or why it is refused.
    #[inline(always)]
    fn target_of_go(&self, log: Record) -> Result<usize, CallRefusal>
        ensures refusal { told call_tells result ≡ call_refusal (G.Game.meaning self.now.game.now) self.now.sheet.now log Go }
        ensures target { IfOk result (λ w. w ≡ target (G.Game.meaning self.now.game.now) log.position (entry_of self.now.sheet.now log.position).choice) }
        ensures steps { IfOk result (λ _. log.steps < most_steps) }
    {
        if !self.fits_turn(log.house, log.position) {
            return Err(CallRefusal::Mismatch);
        }
        let choice = entry_at(self.sheet, log.position).choice as usize;
        if !self.has_move(log.position, choice) {
            return Err(CallRefusal::Mismatch);
        }
        if has_most_steps(log) {
            return Err(CallRefusal::Steps);
        }
        Ok(target_of(self.game, log.position, choice))
    }
}

impl HouseTurn {
    // Makes the sheet's choice.
    pub fn go<G: Game>(self, game: &G, sheet: &[Entry]) -> Result<Outcome, TurnRefused<HouseTurn>>
        ensures answer { call_told result ≡ call_of (G.Game.meaning game.now) sheet.now self.log Go }
        ensures turn { IfErr result (λ e. e.given ≡ self) }
    {
        let target = Board { game, sheet }.target_of_go(self.log);
        self.answer(game, target)
    }
}
