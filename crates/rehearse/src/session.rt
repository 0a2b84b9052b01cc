// A play at the terminal. A turn tells nothing of itself while it lasts, so the player keeps in mind
// where it stands.
use crate::show::{show_moves, show_record, show_refusal};
use game::arena::Game;
use game::reads::{owner_of, target_of};
use game::sheet::Entry;
use play::set_out::set_out;
use play::turn::{GuestTurn, HouseTurn, Outcome};

// Where a play takes place: the terminal, the game and its sheet.
#[derive_where(Clone, Copy)]
pub(crate) struct Table<'a, G> {
    pub(crate) rt: &'a HostRuntime,
    pub(crate) game: &'a G,
    pub(crate) sheet: &'a [Entry],
}

// The outcome at hand, and the position where the play stands.
#[derive(Drop)]
struct Session {
    outcome: Outcome,
    at: usize,
}

// What the person at the terminal says.
#[derive(Drop)]
enum Said {
    Reply(usize),
    Nonsense,
    End,
}

fn read_reply(rt: &HostRuntime) -> anyhow::Result<Said> {
    let mut line = String::new(rt.alloc());
    if rt.read_line(&mut line)? == 0 {
        return Ok(Said::End);
    }
    match line.as_str().trim() {
        "end" => Ok(Said::End),
        word => Ok(word.parse().map_or(Said::Nonsense, Said::Reply)),
    }
}

impl<'a, G: Game> Table<'a, G> {
    // The house makes the sheet's choice.
    fn house_moves(&self, turn: HouseTurn, at: usize) -> anyhow::Result<Option<Session>> {
        let rt = self.rt;
        let house = owner_of(self.game, at);
        let k = self.sheet.get(at).copied().unwrap_or_default().choice as usize;
        let w = target_of(self.game, at, k);
        println!(rt; "At {at}, {house:?}'s turn, the house: it makes move {k}, to {w}.")?;
        match turn.go(self.game, self.sheet) {
            Ok(outcome) => Ok(Some(Session { outcome, at: w })),
            Err(refused) => {
                show_refusal(rt, refused.refusal)?;
                show_record(rt, refused.given.end())?;
                Ok(None)
            }
        }
    }

    // The guest replies with move `k`.
    fn guest_replies(&self, turn: GuestTurn, at: usize, k: usize) -> anyhow::Result<Session> {
        match turn.reply(self.game, self.sheet, k) {
            Ok(outcome) => Ok(Session {
                outcome,
                at: target_of(self.game, at, k),
            }),
            Err(refused) => {
                show_refusal(self.rt, refused.refusal)?;
                Ok(Session {
                    outcome: refused.given.into(),
                    at,
                })
            }
        }
    }

    // The guest is asked for a move.
    fn guest_moves(&self, turn: GuestTurn, at: usize) -> anyhow::Result<Option<Session>> {
        let rt = self.rt;
        let guest = owner_of(self.game, at);
        print!(rt; "At {at}, {guest:?}'s turn, yours. Moves:")?;
        show_moves(rt, self.game, at)?;
        match read_reply(rt)? {
            Said::Reply(k) => Ok(Some(self.guest_replies(turn, at, k)?)),
            Said::Nonsense => {
                println!(rt; "That is no number.")?;
                let outcome = turn.into();
                Ok(Some(Session { outcome, at }))
            }
            Said::End => {
                show_record(rt, turn.end())?;
                Ok(None)
            }
        }
    }

    // One turn; nothing once the play is over, and its record has been shown.
    fn take_turn(&self, session: Session) -> anyhow::Result<Option<Session>> {
        let Session { outcome, at } = session;
        match outcome {
            Outcome::House(turn) => self.house_moves(turn, at),
            Outcome::Guest(turn) => self.guest_moves(turn, at),
            Outcome::Ended(play) => {
                let rt = self.rt;
                let loser = owner_of(self.game, at);
                println!(rt;
                    "At {at} there are no moves: {loser:?}, whose position it is, has lost."
                )?;
                show_record(rt, play.end())?;
                Ok(None)
            }
        }
    }

    // Plays from `start` until the play ends, or the person does. The loop has a count that no person comes to,
    // since each loop has to be shown to end.
    pub(crate) fn play_from(&self, start: usize) -> anyhow::Result<()> {
        let outcome = set_out(self.game, self.sheet, start)?;
        let mut session = Session { outcome, at: start };
        for _ in 0..u64::MAX {
            match self.take_turn(session)? {
                Some(next) => session = next,
                None => return Ok(()),
            }
        }
        Ok(())
    }
}
