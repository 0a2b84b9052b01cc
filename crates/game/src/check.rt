// The check: a sheet is accepted exactly if it keeps the five rules, and then its colours say who wins.
ghost use Rattle.std.specs.Prelude.{◌≡◌, ◌<◌, ◌&&◌, ◌||◌, not, true, length, None, nat_lt, ◌==◌};
ghost use Rattle.std.specs.Option.{option_map};
ghost use Rattle.game.specs.Positions.{position, degree};
ghost use Rattle.game.specs.Sheets.{entry_of, Settles};
ghost use Rattle.game.specs.Refusals.{refused_at, tells, told};
ghost use Rattle.game.specs.Checking.{choice_fits, each_counting, keeps_colour, rank_fits, rank_falls, broken_for, counting, refused_by, checked, AcceptsKeeping, UniqueColours};

use crate::arena::Game;
use crate::reads::{degree_of, kind_of, level_of, owner_of, target_of};
use crate::refusal::Refusal;
use crate::sheet::Entry;
use crate::side::Side;
use std::ops::Range;

// Rule 22.
fn choice_fits(own: bool, choice: u16, moves: usize) -> bool
    ensures { result ≡ choice_fits own choice moves }
{
    if own {
        (choice as usize) < moves
    } else {
        choice == 0
    }
}

// Rule 24.
fn rank_fits(same_kind: bool, rank: u16) -> bool
    ensures { result ≡ rank_fits same_kind rank }
{
    if same_kind { rank == 0 } else { rank >= 1 }
}

// Whether the moves of an entry that count keep the rules 23 and, as far as it asks something of them, 25.
#[derive(Clone, Copy)]
struct MoveRules {
    keep_colour: bool,
    fall: bool,
}

// A position under check, with what the game and the sheet say of it; the sheet has an entry for each
// position. Level and number of moves are kept, since they are asked for at every move.
#[derive(Drop)]
struct CheckedEntry<'a, G: Game> {
    game: &'a G,
    sheet: &'a [Entry],
    v: usize,
    level: usize,
    move_count: usize,
    entry: Entry,
    ghost sized: { length sheet.now ≡ length (G.meaning game.now) },
    ghost levelled: { level ≡ (position (G.meaning game.now) v).level },
    ghost counted: { move_count ≡ degree (G.meaning game.now) v },
    ghost entered: { entry ≡ entry_of sheet.now v },
}

impl<'a, G: Game> CheckedEntry<'a, G> {
    // Whether a target has an entry of the same colour.
    fn has_colour(&self, target: usize) -> bool
        requires { target < length self.now.sheet.now }
        ensures { result ≡ ((entry_of self.now.sheet.now target).colour == self.now.entry.colour) }
    {
        self.sheet[target].colour == self.entry.colour
    }

    // Whether a target lies in another level or has a smaller rank.
    fn falls_to(&self, target: usize) -> bool
        requires { target < length self.now.sheet.now }
        ensures { result ≡ (not ((position (G.meaning self.now.game.now) target).level == self.now.level) || nat_lt (entry_of self.now.sheet.now target).rank self.now.entry.rank) }
    {
        level_of(self.game, target) != self.level || self.sheet[target].rank < self.entry.rank
    }

    // Whether move `k` leads to an entry of the same colour.
    fn keeps_colour(&self, k: usize) -> bool
        ensures { result ≡ keeps_colour (G.meaning self.now.game.now) self.now.sheet.now self.now.v k }
    {
        self.has_colour(target_of(self.game, self.v, k))
    }

    // Whether move `k` does, and leaves the level or leads to a smaller rank. It asks for the target once.
    fn keeps_both(&self, k: usize) -> bool
        ensures { result ≡ (keeps_colour (G.meaning self.now.game.now) self.now.sheet.now self.now.v k && rank_falls (G.meaning self.now.game.now) self.now.sheet.now self.now.v k) }
    {
        let target = target_of(self.game, self.v, k);
        self.has_colour(target) && self.falls_to(target)
    }

    // The moves that count: the chosen one where the colour owns the position, else all.
    fn counting(&self, own: bool) -> Range<usize>
        ensures { result ≡ counting own self.now.entry.choice self.now.move_count }
    {
        if own {
            let choice = self.entry.choice as usize;
            choice..choice + 1
        } else {
            0..self.move_count
        }
    }

    // Whether each move that counts keeps the colour.
    fn moves_keep_colour(&self, own: bool) -> bool
        ensures { result ≡ each_counting own self.now.entry.choice self.now.move_count (keeps_colour (G.meaning self.now.game.now) self.now.sheet.now self.now.v) }
    {
        self.counting(own).all(|k| self.keeps_colour(k))
    }

    // Whether each move that counts keeps the colour, and the rank falls along each.
    fn moves_keep_both(&self, own: bool) -> bool
        ensures { result ≡ (each_counting own self.now.entry.choice self.now.move_count (keeps_colour (G.meaning self.now.game.now) self.now.sheet.now self.now.v) && each_counting own self.now.entry.choice self.now.move_count (rank_falls (G.meaning self.now.game.now) self.now.sheet.now self.now.v)) }
    {
        self.counting(own).all(|k| self.keeps_both(k))
    }

    // What the moves that count keep. Of an entry that keeps both rules one pass over them shows it.
    fn move_rules(&self, own: bool, same_kind: bool) -> MoveRules
        ensures keep_colour { result.keep_colour ≡ each_counting own self.now.entry.choice self.now.move_count (keeps_colour (G.meaning self.now.game.now) self.now.sheet.now self.now.v) }
        ensures fall { result.keep_colour ≡ true → result.fall ≡ (same_kind || each_counting own self.now.entry.choice self.now.move_count (rank_falls (G.meaning self.now.game.now) self.now.sheet.now self.now.v)) }
    {
        if !same_kind && self.moves_keep_both(own) {
            return MoveRules {
                keep_colour: true,
                fall: true,
            };
        }
        MoveRules {
            keep_colour: self.moves_keep_colour(own),
            fall: same_kind,
        }
    }

    // The first rule that the entry breaks.
    fn check(&self) -> Result<(), Refusal>
        ensures { told tells result ≡ refused_by (G.meaning self.now.game.now) self.now.sheet.now self.now.v }
    {
        let v = self.v;
        let colour = Side::try_from(self.entry.colour).map_err(|_| Refusal::Colour(v))?;
        self.check_for(colour)
    }

    // The first of the rules 22 to 25 that the entry breaks, by its colour.
    fn check_for(&self, colour: Side) -> Result<(), Refusal>
        ensures { told tells result ≡ option_map (refused_at self.now.v) (broken_for (G.meaning self.now.game.now) self.now.sheet.now self.now.v colour) }
    {
        let v = self.v;
        let own = colour == owner_of(self.game, v);
        if !choice_fits(own, self.entry.choice, self.move_count) {
            return Err(Refusal::Choice(v));
        }
        let same_kind = colour == kind_of(self.game, v);
        let moves = self.move_rules(own, same_kind);
        if !moves.keep_colour {
            return Err(Refusal::Move(v));
        }
        if !rank_fits(same_kind, self.entry.rank) {
            return Err(Refusal::Rank(v));
        }
        if !moves.fall {
            return Err(Refusal::Fall(v));
        }
        Ok(())
    }
}

// Whether a sheet has one entry for each position of a game.
pub fn is_sized<G: Game>(game: &G, sheet: &[Entry]) -> bool
    ensures { result ≡ (length sheet.now == length (G.Game.meaning game.now)) }
{
    sheet.len() == game.count()
}

// Accepts a sheet, or says which rule it breaks first: its length, then the entries from position 0 upwards.
pub fn check<G: Game>(game: &G, sheet: &[Entry]) -> Result<(), Refusal>
    ensures first_broken { told tells result ≡ checked (G.Game.meaning game.now) sheet.now }
    ensures accepts_keeping { AcceptsKeeping (G.Game.meaning game.now) sheet.now (told tells result) }
    ensures colours_win { told tells result ≡ None → Settles (G.Game.meaning game.now) sheet.now }
    ensures colours_unique { told tells result ≡ None → UniqueColours (G.Game.meaning game.now) sheet.now }
{
    if !is_sized(game, sheet) {
        return Err(Refusal::Length);
    }
    for (v, entry) in sheet.iter().enumerate() {
        let checked = CheckedEntry {
            game,
            sheet,
            v,
            level: level_of(game, v),
            move_count: degree_of(game, v),
            entry: *entry,
        };
        checked.check()?;
    }
    Ok(())
}
