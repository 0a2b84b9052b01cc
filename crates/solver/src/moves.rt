// What the moves of a position say: whether a round takes it, and which move it chooses.
ghost use Rattle.std.specs.Prelude.{◌≡◌, ◌<◌, ◌≤◌, Bool, true, cond, length};
ghost use Rattle.std.proofs.Props.{props};
ghost use Rattle.game.specs.Sides.{opposite, same};
ghost use Rattle.game.specs.Positions.{position, degree, target};
ghost use Rattle.game.specs.Sheets.{entry_of};
ghost use Rattle.rounds.specs.Below.{first_true};
ghost use Rattle.rounds.specs.Rounds.{taker, leads_already, forced, taken, colour_of, suits, choice_of};
ghost use Rattle.solver.specs.Stages.{DoneFrom, Readable};

use game::arena::Game;
use game::reads::{degree_of, kind_of, level_of, owner_of, target_of};
use game::sheet::Entry;
use game::side::Side;

// Position `v` before round `n` + 1 of its level, with a sheet that tells what the round reads. Its level and its
// taker stand by, for each move asks for them.
// `by { Prim.hlevel props }` shows that a ghost field's fact is a proposition, as a ghost field asks: any two
// proofs of it are equal.
#[derive(Drop)]
pub(crate) struct Waiting<'a, G: Game> {
    pub(crate) game: &'a G,
    pub(crate) sheet: &'a [Entry],
    pub(crate) v: usize,
    pub(crate) n: usize,
    pub(crate) level: usize,
    pub(crate) taker: Side,
    ghost same_level: { level ≡ (position (G.Game.meaning game.now) v).level },
    ghost against_kind: { taker ≡ opposite (position (G.Game.meaning game.now) v).kind },
    ghost read: { Readable (G.Game.meaning game.now) (position (G.Game.meaning game.now) v).level n sheet.now } by { Prim.hlevel props },
}

impl<G: Game> Waiting<'_, G> {
    // Whether move `k` leads to a position that is the taker's already.
    #[inline(always)]
    fn leads_already(&self, k: usize) -> bool
        requires { k < degree (G.Game.meaning self.now.game.now) self.now.v }
        ensures { result ≡ leads_already (G.Game.meaning self.now.game.now) (colour_of (G.Game.meaning self.now.game.now)) (taken (G.Game.meaning self.now.game.now) self.now.n) self.now.v k }
    {
        let w = target_of(self.game, self.v, k);
        if self.level < level_of(self.game, w) {
            self.sheet[w].colour == u8::from(self.taker)
        } else {
            self.sheet[w].rank >= 1 && self.sheet[w].rank as usize <= self.n
        }
    }

    // Whether the taker owns the position.
    #[inline(always)]
    fn taker_owns(&self) -> bool
        ensures { result ≡ same (taker (G.Game.meaning self.now.game.now) self.now.v) (position (G.Game.meaning self.now.game.now) self.now.v).owner }
    {
        self.taker == owner_of(self.game, self.v)
    }

    // Whether what was taken by round `n` forces the position: the taker owns it and some move leads to a
    // position that is the taker's already, or the other side owns it and every move does.
    #[inline(always)]
    pub(crate) fn is_forced(&self) -> bool
        ensures { result ≡ forced (G.Game.meaning self.now.game.now) (colour_of (G.Game.meaning self.now.game.now)) (taken (G.Game.meaning self.now.game.now) self.now.n) self.now.v }
    {
        let mut moves = 0..degree_of(self.game, self.v);
        if self.taker_owns() {
            moves.any(|k| self.leads_already(k))
        } else {
            moves.all(|k| self.leads_already(k))
        }
    }
}

// Position `v`, with a sheet whose colours and ranks are final.
#[derive(Drop)]
pub(crate) struct Settled<'a, G: Game> {
    pub(crate) game: &'a G,
    pub(crate) sheet: &'a [Entry],
    pub(crate) v: usize,
    ghost here: { v < length (G.Game.meaning game.now) },
    ghost filled: { DoneFrom (G.Game.meaning game.now) 0 sheet.now } by { Prim.hlevel props },
}

impl<G: Game> Settled<'_, G> {
    // Whether the position may choose move `k`: it was taken and the move leads to a position that was the
    // taker's before, or it was not and the move leads to a position of the same colour.
    fn is_suited(&self, k: usize) -> bool
        requires { k < degree (G.Game.meaning self.now.game.now) self.now.v }
        ensures { result ≡ suits (G.Game.meaning self.now.game.now) self.now.v k }
    {
        let rank = self.sheet[self.v].rank;
        if rank == 0 {
            self.sheet[target_of(self.game, self.v, k)].colour == self.sheet[self.v].colour
        } else {
            let waiting = Waiting {
                game: self.game,
                sheet: self.sheet,
                v: self.v,
                n: rank as usize - 1,
                level: level_of(self.game, self.v),
                taker: kind_of(self.game, self.v).other(),
            };
            waiting.leads_already(k)
        }
    }

    // The first move that the position may choose, or 0.
    fn first_suited(&self) -> u16
        ensures { result ≡ first_true (suits (G.Game.meaning self.now.game.now) self.now.v) (degree (G.Game.meaning self.now.game.now) self.now.v) }
    {
        (0..degree_of(self.game, self.v))
            .find(|k| self.is_suited(*k))
            .unwrap_or(0) as u16
    }

    // The choice at the position.
    pub(crate) fn choice(&self) -> u16
        ensures { result ≡ choice_of (G.Game.meaning self.now.game.now) self.now.v }
    {
        if self.sheet[self.v].colour == u8::from(owner_of(self.game, self.v)) {
            self.first_suited()
        } else {
            0
        }
    }
}
