// Why no play is set out, and why a call is refused.
ghost use Rattle.std.specs.Prelude.{◌≡◌, Some};
ghost use Rattle.game.specs.Refusals.{refusal_text};
ghost use Rattle.play.specs.Told.{set_out_tells, call_tells, calls_tells, set_out_text, calls_text};

use game::refusal::{GivenBack, Numbered, Refusal};
use std::error::Error;
use std::fmt;

// Why no play is set out.
#[derive(Clone, Copy, PartialEq, Eq, Debug)]
pub enum SetOutRefusal {
    // The start is not in the game.
    Start,
    // The check refuses the sheet, and says why.
    Sheet(Refusal),
}

// Why a call is refused.
#[derive(Clone, Copy, PartialEq, Eq, Debug)]
pub enum CallRefusal {
    // The turn does not fit the game and the sheet: the sheet has not as many entries as there
    // are positions, the position is not there or the other side owns it, or go's choice is no move.
    Mismatch = 33,
    // The most steps were made.
    Steps = 35,
    // There is no move of that number to reply with.
    Move = 34,
}

// Why a list of calls is not played.
#[derive(Clone, Copy, PartialEq, Eq, Debug)]
pub enum CallsRefusal {
    // The list of answers does not have exactly one place for each call.
    Answers,
    // No play is set out, for the reason given.
    SetOut(SetOutRefusal),
}

// The turn as it was, and why the call was refused.
pub type TurnRefused<T> = GivenBack<CallRefusal, T>;

impl From<Refusal> for SetOutRefusal {
    ghost use Rattle.play.specs.declared.refusal.SetOutRefusal.TheVariants.{Sheet};

    ghost from_gives = { λ refusal result. result ≡ Sheet refusal };

    fn from(refusal: Refusal) -> SetOutRefusal {
        SetOutRefusal::Sheet(refusal)
    }
}

impl From<SetOutRefusal> for CallsRefusal {
    ghost use Rattle.play.specs.declared.refusal.CallsRefusal.TheVariants.{SetOut};

    ghost from_gives = { λ refusal result. result ≡ SetOut refusal };

    fn from(refusal: SetOutRefusal) -> CallsRefusal {
        CallsRefusal::SetOut(refusal)
    }
}

impl Numbered for SetOutRefusal {
    ghost tells = { set_out_tells };

    fn number(&self) -> u8 {
        match self {
            SetOutRefusal::Start => 31,
            SetOutRefusal::Sheet(_) => 32,
        }
    }
}

impl Numbered for CallRefusal {
    ghost tells = { call_tells };

    fn number(&self) -> u8 {
        *self as u8
    }
}

// The number is that of setting out, or 0, since no rule has a number for the list of answers.
impl Numbered for CallsRefusal {
    ghost tells = { calls_tells };

    fn number(&self) -> u8 {
        match self {
            CallsRefusal::Answers => 0,
            CallsRefusal::SetOut(refusal) => refusal.number(),
        }
    }
}

impl fmt::Display for SetOutRefusal {
    ghost output = { λ r. Some (set_out_text r) };

    fn fmt<W: fmt::Write>(&self, f: &mut fmt::Formatter<W>) -> fmt::Result {
        let number = self.number();
        match self {
            SetOutRefusal::Start => write!(f, "refused {number}"),
            SetOutRefusal::Sheet(reason) => write!(f, "refused {number}: {reason}"),
        }
    }
}

impl fmt::Display for CallRefusal {
    ghost output = { λ r. Some (refusal_text (call_tells r)) };

    fn fmt<W: fmt::Write>(&self, f: &mut fmt::Formatter<W>) -> fmt::Result {
        write!(f, "refused {}", self.number())
    }
}

impl fmt::Display for CallsRefusal {
    ghost output = { λ r. Some (calls_text r) };

    fn fmt<W: fmt::Write>(&self, f: &mut fmt::Formatter<W>) -> fmt::Result {
        let number = self.number();
        match self {
            CallsRefusal::Answers => write!(f, "refused {number}"),
            CallsRefusal::SetOut(reason) => write!(f, "{reason}"),
        }
    }
}

impl Error for SetOutRefusal {}

impl Error for CallRefusal {}

impl Error for CallsRefusal {}
