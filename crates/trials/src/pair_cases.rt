// Pairs of row games, each with the answers of another checker, and each swapped too.
//
// A case is: the head's owner; the two lists of the first game and the position in it; the same of the
// second; what making the pair answers; and, where it is a pair, the rounds of its colouring, the
// length of its sheet and the sheet.
use crate::coloured::Colourings;
use crate::parts::{Told, read_numbers, take_answer, take_sheet};
use cases::fault::Brief;
use cases::numbers::Numbers;
use cases::parts::{take_game, take_side};
use cases::tally::Tally;
use cases::trying::Cases;
use games::pair::Pair;
use games::rows::Rows;

// What is left of a file of pairs, and the tallies of its cases.
#[derive(Drop)]
struct PairCases<'a> {
    rt: &'a HostRuntime,
    numbers: Numbers,
    pairs: Tally,
    colourings: Colourings,
}

impl<'a> PairCases<'a> {
    fn try_pair(&mut self, pair: Pair<Rows, Rows>) -> anyhow::Result<()> {
        let rounds = self.numbers.take()?;
        let len = self.numbers.take()?;
        let sheet = take_sheet(self.rt, &mut self.numbers, len)?;
        self.colourings.note(self.rt, &pair, rounds, &sheet)?;
        self.colourings.note_swapped(self.rt, pair, rounds, &sheet)
    }
}

impl<'a> Cases for PairCases<'a> {
    type Fault = anyhow::Error;

    ghost left = { λ cases. cases.numbers };

    fn is_done(&self) -> bool {
        self.numbers.is_done()
    }

    fn try_case(&mut self) -> anyhow::Result<()> {
        let owner = take_side(&mut self.numbers).map_err(Brief)?;
        let first = take_game(self.rt.alloc(), &mut self.numbers).map_err(Brief)?;
        let p = self.numbers.take()? as usize;
        let second = take_game(self.rt.alloc(), &mut self.numbers).map_err(Brief)?;
        let q = self.numbers.take()? as usize;
        let expected = take_answer(&mut self.numbers)?;
        match Pair::new(owner, first, p, second, q) {
            Ok(pair) => {
                self.pairs.note(self.rt, expected.is_ok())?;
                self.try_pair(pair)
            }
            Err(e) => {
                let answer = Told::new(e.refusal, None);
                self.pairs.note(self.rt, expected == Err(answer))?;
                Ok(())
            }
        }
    }
}

// Tries every case of a file, and prints how many there were and which differ.
pub(crate) fn try_pairs(rt: &HostRuntime, path: &str) -> anyhow::Result<()> {
    let mut cases = PairCases {
        rt,
        numbers: read_numbers(rt, path)?,
        pairs: Tally::new("pairs"),
        colourings: Colourings {
            games: Tally::new("colourings of pairs"),
            swapped: Tally::new("swapped pairs"),
        },
    };
    cases.try_all()?;
    println!(rt; "{}", cases.pairs)?;
    println!(rt; "{}", cases.colourings.games)?;
    println!(rt; "{}", cases.colourings.swapped)?;
    Ok(())
}
