// How a play stands, and how it makes a step. What go and reply share is inlined in both: with calls in their place
// a step took a third longer.
ghost use Rattle.std.specs.Prelude.{◌≡◌, ◌<◌, IfOk, IfErr};
ghost use Rattle.std.specs.Result.{result_map_both};
ghost use Rattle.plain.specs.Plain.{most_steps, turn_at, standing};
ghost use Rattle.plain.specs.Calls.{step_to};
ghost use Rattle.play.specs.Told.{outcome_tells, call_tells, call_told};

use crate::refusal::{CallRefusal, TurnRefused};
use crate::turn::{Arrived, Outcome, Play};
use game::arena::Game;
use game::reads::{degree_of, kind_of, owner_of};
use game::side::Side;
use plain::standing::{Record, Turn};
use std::marker::PhantomData;

// Whose turn it is at `v`.
pub(crate) fn turn_at<G: Game>(game: &G, house: Side, v: usize) -> Turn
    ensures { result ≡ turn_at (G.Game.meaning game.now) house v }
{
    if degree_of(game, v) == 0 {
        Turn::Ended
    } else if house == owner_of(game, v) {
        Turn::House
    } else {
        Turn::Guest
    }
}

impl Play<Arrived> {
    // Whose turn it is.
    #[inline(always)]
    pub(crate) fn outcome<G: Game>(self, game: &G) -> Outcome
        ensures { outcome_tells result ≡ standing (G.Game.meaning game.now) self.log }
    {
        match turn_at(game, self.log.house, self.log.position) {
            Turn::House => Outcome::House(self.into_state()),
            Turn::Guest => Outcome::Guest(self.into_state()),
            Turn::Ended => Outcome::Ended(self.into_state()),
        }
    }
}

impl<S> Play<S> {
    // The play one step on, at `w`.
    #[inline(always)]
    fn step_to<G: Game>(self, game: &G, w: usize) -> Play<Arrived>
        requires { self.log.steps < most_steps }
        ensures { result.log ≡ step_to (G.Game.meaning game.now) self.log w }
    {
        let log = self.log;
        let guest = log.house.other();
        Play {
            log: Record {
                house: log.house,
                position: w,
                steps: log.steps + 1,
                entered: if guest == kind_of(game, w) {
                    log.entered + 1
                } else {
                    log.entered
                },
            },
            state: PhantomData,
        }
    }

    // Makes a step where the call is not refused, and else gives the turn back.
    #[inline(always)]
    pub(crate) fn answer<G: Game>(
        self,
        game: &G,
        target: Result<usize, CallRefusal>,
    ) -> Result<Outcome, TurnRefused<Play<S>>>
        requires { IfOk target (λ _. self.log.steps < most_steps) }
        ensures answer { call_told result ≡ result_map_both (λ w. standing (G.Game.meaning game.now) (step_to (G.Game.meaning game.now) self.log w)) call_tells target }
        ensures given { IfErr result (λ e. e.given ≡ self) }
    {
        match target {
            Ok(w) => Ok(self.step_to(game, w).outcome(game)),
            Err(refusal) => Err(TurnRefused {
                refusal,
                given: self,
            }),
        }
    }
}
