// The turns of a play: one type, whose state is a type. A call takes the turn that it is made on, so none is
// played twice.
ghost use Rattle.std.specs.Prelude.{◌≡◌, ◌≤◌};

use plain::standing::{Record, Standing, Turn};
use std::fmt;
use std::marker::PhantomData;

// The house is to move: the side that the sheet answers for.
pub struct House;

// The guest is to move: the side against the house.
pub struct Guest;

// The play stands at a position without moves: its owner has lost.
pub struct Ended;

// The play has come to its position, and it is not yet told whose turn it is.
pub(crate) struct Arrived;

// A play in the state `S`: the record so far, and the fact that no more positions of the guest's kind were
// entered than steps made.
#[derive(Drop)]
pub struct Play<S> {
    pub(crate) log: Record,
    pub(crate) state: PhantomData<S>,
    ghost within: { log.entered ≤ log.steps },
}

pub type HouseTurn = Play<House>;

pub type GuestTurn = Play<Guest>;

pub type EndedPlay = Play<Ended>;

// What setting out a play, or a step of it, leads to.
#[derive(Drop)]
pub enum Outcome {
    House(HouseTurn),
    Guest(GuestTurn),
    Ended(EndedPlay),
}

impl<S> Play<S> {
    // The play in another state.
    pub(crate) fn into_state<T>(self) -> Play<T>
        ensures { result.log ≡ self.log }
    {
        Play {
            log: self.log,
            state: PhantomData,
        }
    }

    // Ends the play, and gives its record.
    pub fn end(self) -> Record
        ensures { result ≡ self.log }
    {
        let Play { log, state: _ } = self;
        log
    }
}

// A turn tells nothing while it lasts, so its record is not printed.
impl<S> fmt::Debug for Play<S> {
    ghost use Rattle.std.specs.Prelude.{Some, codes};

    ghost debug_output = { λ _. Some (codes "Play { .. }") };

    fn fmt<W: fmt::Write>(&self, f: &mut fmt::Formatter<W>) -> fmt::Result {
        f.write_str("Play { .. }")
    }
}

impl From<HouseTurn> for Outcome {
    ghost use Rattle.play.specs.declared.turn.Outcome.TheVariants as outcome;

    ghost from_gives = { λ house result. result ≡ outcome.House house };

    fn from(house: HouseTurn) -> Outcome {
        Outcome::House(house)
    }
}

impl From<GuestTurn> for Outcome {
    ghost use Rattle.play.specs.declared.turn.Outcome.TheVariants as outcome;

    ghost from_gives = { λ guest result. result ≡ outcome.Guest guest };

    fn from(guest: GuestTurn) -> Outcome {
        Outcome::Guest(guest)
    }
}

impl Outcome {
    ghost use Rattle.play.specs.Told.{outcome_tells};

    // What the outcome tells.
    pub(crate) fn standing(&self) -> Standing
        ensures { result ≡ outcome_tells self.now }
    {
        match self {
            Outcome::House(turn) => Standing {
                turn: Turn::House,
                log: turn.log,
            },
            Outcome::Guest(turn) => Standing {
                turn: Turn::Guest,
                log: turn.log,
            },
            Outcome::Ended(play) => Standing {
                turn: Turn::Ended,
                log: play.log,
            },
        }
    }

    // Ends the play, whoever's turn it is, and gives its record.
    pub fn end(self) -> Record
        ensures { result ≡ (outcome_tells self).log }
    {
        match self {
            Outcome::House(turn) => turn.end(),
            Outcome::Guest(turn) => turn.end(),
            Outcome::Ended(play) => play.end(),
        }
    }
}
