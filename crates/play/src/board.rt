// A game and a sheet, as each call is given them, and what they tell of a turn.
ghost use Rattle.std.specs.Prelude.{◌≡◌, not, nat_lt};
ghost use Rattle.game.specs.Positions.{degree};
ghost use Rattle.game.specs.Sheets.{entry_of};
ghost use Rattle.plain.specs.Plain.{most_steps};
ghost use Rattle.plain.specs.Calls.{fits_turn};

use game::arena::Game;
use game::check::is_sized;
use game::reads::{degree_of, owner_of};
use game::sheet::Entry;
use game::side::Side;
use plain::standing::Record;

// The most steps of a play.
const MOST_STEPS: u16 = 65535;

// The entry of `v`; past the sheet's end all numbers are 0.
pub(crate) fn entry_at(sheet: &[Entry], v: usize) -> Entry
    ensures { result ≡ entry_of sheet.now v }
{
    sheet.get(v).copied().unwrap_or_default()
}

// Whether the most steps were made.
pub(crate) fn has_most_steps(log: Record) -> bool
    ensures { result ≡ not (nat_lt log.steps most_steps) }
{
    log.steps >= MOST_STEPS
}

// A game and a sheet.
#[derive_where(Clone, Copy)]
pub(crate) struct Board<'a, G> {
    pub game: &'a G,
    pub sheet: &'a [Entry],
}

impl<'a, G: Game> Board<'a, G> {
    // Whether a turn of `side`'s at `v` fits.
    pub(crate) fn fits_turn(&self, side: Side, v: usize) -> bool
        ensures { result ≡ fits_turn (G.Game.meaning self.now.game.now) self.now.sheet.now side v }
    {
        is_sized(self.game, self.sheet) && v < self.game.count() && side == owner_of(self.game, v)
    }

    // Whether `v` has a move `k`.
    pub(crate) fn has_move(&self, v: usize, k: usize) -> bool
        ensures { result ≡ nat_lt k (degree (G.Game.meaning self.now.game.now) v) }
    {
        k < degree_of(self.game, v)
    }
}
