// Row games: a game that is read off a list of rows and a list of targets.
ghost use Rattle.std.specs.Prelude.{◌≡◌, length, Some, None, MatchResult};
ghost use Rattle.games.specs.Rows.{rows_refusal, meaning_of, tells};
ghost use Rattle.games.specs.Meaning.{lawful};

use crate::row::Row;
pub use crate::row::RowsRefused;
use crate::row_rules::{rows_fault, side_in, target_at};
use game::arena::Game;
use game::refusal::GivenBack;
use game::side::Side;

// A game made of the two lists, which it owns as they were handed in. They are known to have no fault.
#[derive(Debug, Drop)]
pub struct Rows {
    rows: Vec<Row>,
    targets: Vec<u16>,
    ghost unrefused: { rows_refusal rows.items targets.items ≡ None },
}

impl Rows {
    // The game that the lists make, or the lists again with their first fault.
    pub fn new(rows: Vec<Row>, targets: Vec<u16>) -> Result<Rows, RowsRefused>
        ensures refusal { MatchResult result (λ _. rows_refusal rows.items targets.items ≡ None) (λ e. rows_refusal rows.items targets.items ≡ Some (tells e.refusal)) }
        ensures lists { MatchResult result (λ g. (g.rows ≡ rows) × (g.targets ≡ targets)) (λ e. e.given ≡ (rows, targets)) }
    {
        match rows_fault(&rows, &targets) {
            Ok(()) => Ok(Rows { rows, targets }),
            Err(refusal) => Err(GivenBack {
                refusal,
                given: (rows, targets),
            }),
        }
    }

    // The lists that the game is made of.
    pub fn into_lists(self) -> (Vec<Row>, Vec<u16>)
        ensures { (result.0 ≡ self.rows) × (result.1 ≡ self.targets) }
    {
        let Rows { rows, targets } = self;
        (rows, targets)
    }
}

#[tactic(auto, using(crate::proofs::RowReads::row_answers, std::proofs::lemmas::Option::gets))]
impl Game for Rows {
    ghost meaning = { λ s. meaning_of s.rows.items s.targets.items };

    ghost bounded = { λ x. (lawful x.rows.items x.targets.items x.unrefused).bounded };

    ghost monotone = { λ x. (lawful x.rows.items x.targets.items x.unrefused).monotone };

    ghost keeps = { λ x. (lawful x.rows.items x.targets.items x.unrefused).keeps_kind };

    fn count(&self) -> usize {
        self.rows.len()
    }

    fn owner(&self, p: usize) -> Option<Side> {
        self.rows.get(p).map(|row| side_in(row.owner))
    }

    fn level(&self, p: usize) -> Option<usize> {
        self.rows.get(p).map(|row| row.level as usize)
    }

    fn kind(&self, p: usize) -> Option<Side> {
        self.rows.get(p).map(|row| side_in(row.kind))
    }

    fn degree(&self, p: usize) -> Option<usize> {
        self.rows.get(p).map(|row| row.count as usize)
    }

    fn target(&self, p: usize, k: usize) -> Option<usize> {
        self.rows
            .get(p)
            .and_then(|row| target_at(&self.targets, *row, k))
    }
}
