// Row games, each with the answers of another checker, and each swapped too.
//
// A case is: the two lists; what making the game answers; and, where it is a game, the rounds of its
// colouring and the sheet, how many checks there are, and for each check the sheet's length, the sheet
// and what the check answers.
use crate::coloured::Colourings;
use crate::parts::{Told, read_numbers, take_answer, take_sheet};
use cases::fault::Brief;
use cases::lists::take_lists;
use cases::numbers::Numbers;
use cases::tally::Tally;
use cases::trying::Cases;
use game::arena::Game;
use game::check::check;
use games::rows::Rows;

// What is left of a file of row games, and the tallies of its cases.
#[derive(Drop)]
struct RowCases<'a> {
    rt: &'a HostRuntime,
    numbers: Numbers,
    games: Tally,
    checks: Tally,
    colourings: Colourings,
}

impl<'a> RowCases<'a> {
    fn try_checks(&mut self, game: &Rows) -> anyhow::Result<()> {
        // A chain would be no plainer: each turn takes, tries and notes.
        for _ in 0..self.numbers.take()? {
            let len = self.numbers.take()?;
            let sheet = take_sheet(self.rt, &mut self.numbers, len)?;
            let expected = take_answer(&mut self.numbers)?;
            let answer = check(game, &sheet).map_err(|r| Told::new(r, r.position()));
            self.checks.note(self.rt, answer == expected)?;
        }
        Ok(())
    }

    fn try_game(&mut self, game: Rows) -> anyhow::Result<()> {
        let rounds = self.numbers.take()?;
        let len = u16::try_from(game.count())?;
        let sheet = take_sheet(self.rt, &mut self.numbers, len)?;
        self.colourings.note(self.rt, &game, rounds, &sheet)?;
        self.checks.note(self.rt, check(&game, &sheet).is_ok())?;
        self.try_checks(&game)?;
        self.colourings.note_swapped(self.rt, game, rounds, &sheet)
    }
}

impl<'a> Cases for RowCases<'a> {
    type Fault = anyhow::Error;

    ghost left = { λ cases. cases.numbers };

    fn is_done(&self) -> bool {
        self.numbers.is_done()
    }

    fn try_case(&mut self) -> anyhow::Result<()> {
        let (rows, targets) = take_lists(self.rt.alloc(), &mut self.numbers).map_err(Brief)?;
        let expected = take_answer(&mut self.numbers)?;
        match Rows::new(rows, targets) {
            Ok(game) => {
                self.games.note(self.rt, expected.is_ok())?;
                self.try_game(game)
            }
            Err(e) => {
                let answer = Told::new(e.refusal, e.refusal.row());
                self.games.note(self.rt, expected == Err(answer))?;
                Ok(())
            }
        }
    }
}

// Tries every case of a file, and prints how many there were and which differ.
pub(crate) fn try_row_games(rt: &HostRuntime, path: &str) -> anyhow::Result<()> {
    let mut cases = RowCases {
        rt,
        numbers: read_numbers(rt, path)?,
        games: Tally::new("row games"),
        checks: Tally::new("checks"),
        colourings: Colourings {
            games: Tally::new("colourings"),
            swapped: Tally::new("swapped games"),
        },
    };
    cases.try_all()?;
    println!(rt; "{}", cases.games)?;
    println!(rt; "{}", cases.checks)?;
    println!(rt; "{}", cases.colourings.games)?;
    println!(rt; "{}", cases.colourings.swapped)?;
    Ok(())
}
