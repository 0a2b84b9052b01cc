// The call on a guest's turn.
ghost use Rattle.std.specs.Prelude.{◌≡◌, ◌<◌, IfOk, IfErr};
ghost use Rattle.game.specs.Positions.{target};
ghost use Rattle.game.specs.Refusals.{told};
ghost use Rattle.plain.specs.declared.call.Call.TheVariants.{Reply};
ghost use Rattle.plain.specs.Plain.{most_steps};
ghost use Rattle.plain.specs.Calls.{call_refusal, call_of};
ghost use Rattle.play.specs.Told.{call_tells, call_told};

use crate::board::{Board, has_most_steps};
use crate::refusal::{CallRefusal, TurnRefused};
use crate::turn::{GuestTurn, Outcome};
use game::arena::Game;
use game::reads::target_of;
use game::sheet::Entry;
use plain::standing::Record;

impl<'a, G: Game> Board<'a, G> {
    // Where reply `k` leads on a turn with a given record, or why it is refused.
    #[inline(always)]
    fn target_of_reply(&self, log: Record, k: usize) -> Result<usize, CallRefusal>
        ensures refusal { told call_tells result ≡ call_refusal (G.Game.meaning self.now.game.now) self.now.sheet.now log (Reply k) }
        ensures target { IfOk result (λ w. w ≡ target (G.Game.meaning self.now.game.now) log.position k) }
        ensures steps { IfOk result (λ _. log.steps < most_steps) }
    {
        if !self.fits_turn(log.house.other(), log.position) {
            return Err(CallRefusal::Mismatch);
        }
        if has_most_steps(log) {
            return Err(CallRefusal::Steps);
        }
        if !self.has_move(log.position, k) {
            return Err(CallRefusal::Move);
        }
        Ok(target_of(self.game, log.position, k))
    }
}

impl GuestTurn {
    // Makes move `k`.
    pub fn reply<G: Game>(
        self,
        game: &G,
        sheet: &[Entry],
        k: usize,
    ) -> Result<Outcome, TurnRefused<GuestTurn>>
        ensures answer { call_told result ≡ call_of (G.Game.meaning game.now) sheet.now self.log (Reply k) }
        ensures turn { IfErr result (λ e. e.given ≡ self) }
    {
        let target = Board { game, sheet }.target_of_reply(self.log, k);
        self.answer(game, target)
    }
}
