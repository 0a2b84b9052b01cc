// A list of calls, played from a start.
ghost use Rattle.std.specs.Prelude.{◌≡◌, length, IfOk, IfErr, if◌then◌else◌, MatchResult, ◌==◌};
ghost use Rattle.std.specs.Option.{option_map};
ghost use Rattle.std.specs.Bool.{then_some};
ghost use Rattle.game.specs.Refusals.{told};
ghost use Rattle.plain.specs.Plain.{comes, plain_answers};
ghost use Rattle.plain.specs.Calls.{call_of, next_of, answers_from, standing_after};
ghost use Rattle.play.specs.Told.{outcome_tells, call_told, answer_told, calls_tells};
ghost use Rattle.play.specs.CallLists.{calls_refusal, played_by, Written};
ghost use Rattle.play.specs.Promise.{Promise};

use crate::board::Board;
use crate::refusal::{CallRefusal, CallsRefusal, TurnRefused};
use crate::set_out::set_out;
use crate::turn::Outcome;
use game::arena::Game;
use game::sheet::Entry;
use plain::call::Call;
use plain::standing::{Record, Standing};

// The answer to a call of a list: the next outcome, as it is told, or the refusal.
pub type Answer = Result<Standing, CallRefusal>;

// What a list of calls came to: the first outcome, how many calls were made, refused ones too, and the
// record at the end.
#[derive(Clone, Copy, PartialEq, Eq, Debug)]
pub struct CallsPlayed {
    pub first: Standing,
    pub made: usize,
    pub at_end: Record,
}

// What one call of a list came to: its answer, if the turn allows the call, and the outcome after it.
#[derive(Drop)]
struct Made {
    answer: Option<Answer>,
    next: Outcome,
}

// Where a list of calls stopped.
#[derive(Drop)]
struct Stopped {
    made: usize,
    outcome: Outcome,
}

// What a call came to, by what the turn answers.
fn made_by<T: Into<Outcome>>(answer: Result<Outcome, TurnRefused<T>>) -> Made
    ensures answer { option_map answer_told result.answer ≡ Some (call_told answer) }
    ensures next { IfOk answer (λ next. result.next ≡ next) }
    ensures given { IfErr answer (λ e. T.converts e.given result.next) }
{
    match answer {
        Ok(next) => Made {
            answer: Some(Ok(next.standing())),
            next,
        },
        Err(refused) => Made {
            answer: Some(Err(refused.refusal)),
            next: refused.given.into(),
        },
    }
}

impl<'a, G: Game> Board<'a, G> {
    // A call of a list, made if the turn allows it.
    fn make_call(&self, outcome: Outcome, call: Call) -> Made
        ensures answer { option_map answer_told result.answer ≡ then_some (comes (outcome_tells outcome).turn call) (call_of (G.Game.meaning self.now.game.now) self.now.sheet.now (outcome_tells outcome).log call) }
        ensures next { outcome_tells result.next ≡ (if comes (outcome_tells outcome).turn call then next_of (outcome_tells outcome) (call_of (G.Game.meaning self.now.game.now) self.now.sheet.now (outcome_tells outcome).log call) else outcome_tells outcome) }
    {
        match (outcome, call) {
            (Outcome::House(turn), Call::Go) => made_by(turn.go(self.game, self.sheet)),
            (Outcome::Guest(turn), Call::Reply(k)) => made_by(turn.reply(self.game, self.sheet, k)),
            (next, _) => Made { answer: None, next },
        }
    }

    // The calls of a list, one after another, up to the first that the turn at hand does not allow.
    fn make_calls(&self, first: Outcome, calls: &[Call], answers: &mut [Answer]) -> Stopped
        requires { length answers.old ≡ length calls.now }
        ensures made { result.made ≡ length (answers_from (G.Game.meaning self.now.game.now) self.now.sheet.now (outcome_tells first) calls.now) }
        ensures answers { Written (answers_from (G.Game.meaning self.now.game.now) self.now.sheet.now (outcome_tells first) calls.now) answers.old answers.new }
        ensures outcome { outcome_tells result.outcome ≡ standing_after (G.Game.meaning self.now.game.now) self.now.sheet.now (outcome_tells first) calls.now }
    {
        let mut outcome = first;
        // `answers` is written by index, since a `zip` of its `iter_mut` states nothing of what was written.
        for (i, call) in calls.iter().enumerate() {
            let made = self.make_call(outcome, *call);
            outcome = made.next;
            match made.answer {
                Some(answer) => answers[i] = answer,
                None => return Stopped { made: i, outcome },
            }
        }
        Stopped {
            made: calls.len(),
            outcome,
        }
    }
}

// Whether a list of answers has one place for each call.
fn fits_calls(answers: &[Answer], calls: &[Call]) -> bool
    ensures { result ≡ (length answers.now == length calls.now) }
{
    answers.len() == calls.len()
}

// Plays a list of calls from `start`: sets out a play, makes each call on the turn that the one before
// gave, and ends the play after the last, or before the first call that the turn at hand does not allow.
// The answers go into `answers`, which has one place for each call; what lies beyond them stays.
#[tactic(auto, using(crate::proofs::Promised::promise, crate::proofs::Played::misfit, crate::proofs::Played::not_set_out, crate::proofs::Played::is_set_out))]
pub fn play_calls<G: Game>(
    game: &G,
    sheet: &[Entry],
    start: usize,
    calls: &[Call],
    answers: &mut [Answer],
) -> Result<CallsPlayed, CallsRefusal>
    ensures refusal { told calls_tells result ≡ calls_refusal (G.Game.meaning game.now) sheet.now start calls.now (length answers.old) }
    ensures played { IfOk result (λ p. p ≡ played_by (G.Game.meaning game.now) sheet.now start calls.now) }
    ensures answers { MatchResult result (λ _. Written (plain_answers (G.Game.meaning game.now) sheet.now start calls.now) answers.old answers.new) (λ _. answers.new ≡ answers.old) }
    ensures promise { Promise }
{
    if !fits_calls(answers, calls) {
        return Err(CallsRefusal::Answers);
    }
    let outcome = set_out(game, sheet, start)?;
    let first = outcome.standing();
    let stopped = Board { game, sheet }.make_calls(outcome, calls, answers);
    Ok(CallsPlayed {
        first,
        made: stopped.made,
        at_end: stopped.outcome.end(),
    })
}
