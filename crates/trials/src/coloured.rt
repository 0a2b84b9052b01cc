// A game's colouring against the one that another checker gives, and that of the swapped game too.
use cases::tally::Tally;
use examples::parts::entry;
use game::arena::Game;
use game::sheet::Entry;
use game::side::Side;
use games::swapped::Swapped;
use solver::colour::colour;
use std::alloc::AllocError;

// The tallies of games' colourings, and of their swapped games'.
#[derive(Drop)]
pub(crate) struct Colourings {
    pub(crate) games: Tally,
    pub(crate) swapped: Tally,
}

impl Colourings {
    // Notes whether a game has the expected sheet as its colouring, in as many rounds.
    pub(crate) fn note<G: Game>(
        &mut self,
        rt: &HostRuntime,
        game: &G,
        rounds: u16,
        expected: &[Entry],
    ) -> anyhow::Result<()> {
        let same = is_coloured(rt, game, rounds, expected)?;
        self.games.note(rt, same)?;
        Ok(())
    }

    // Notes whether the swapped game has that sheet with every colour exchanged, in as many rounds.
    pub(crate) fn note_swapped<G: Game + Drop>(
        &mut self,
        rt: &HostRuntime,
        game: G,
        rounds: u16,
        expected: &[Entry],
    ) -> anyhow::Result<()> {
        let opposite = exchanged(rt, expected)?;
        let same = is_coloured(rt, &Swapped::new(game), rounds, &opposite)?;
        self.swapped.note(rt, same)?;
        Ok(())
    }
}

// Whether the colouring of a game is the expected one, in as many rounds. The slice holds nonsense before.
fn is_coloured<G: Game>(
    rt: &HostRuntime,
    game: &G,
    rounds: u16,
    expected: &[Entry],
) -> Result<bool, AllocError> {
    let nonsense = entry(7, 65535, 65535);
    let mut sheet = vec![in rt.alloc(); nonsense; expected.len()]?;
    Ok(colour(game, &mut sheet) == Ok(rounds as usize) && sheet.as_slice() == expected)
}

// The number of the other side; Green's for one that is no side's.
fn opposite(colour: u8) -> u8 {
    u8::from(Side::try_from(colour).map_or(Side::Green, Side::other))
}

// A sheet with every colour exchanged.
fn exchanged(rt: &HostRuntime, sheet: &[Entry]) -> Result<Vec<Entry>, AllocError> {
    sheet
        .iter()
        .map(|e| Entry {
            colour: opposite(e.colour),
            ..*e
        })
        .collect(rt.alloc())
}
