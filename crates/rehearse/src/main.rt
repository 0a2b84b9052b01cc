// Plays a small game from the terminal: the sheet answers for the house, you reply for the guest.
#![tactic(auto)]

mod example;
mod session;
mod show;

use example::example_game;
use examples::sheet::coloured;
use session::Table;
use show::show_game;

fn main(rt: HostRuntime) -> anyhow::Result<()> {
    rehearse(&rt)
}

fn rehearse(rt: &HostRuntime) -> anyhow::Result<()> {
    let game = example_game(rt.alloc())?;
    let sheet = coloured(rt.alloc(), &game)?;
    show_game(rt, &game)?;
    println!(rt; "Reply with the number of a move, or with 'end' to stop there.")?;
    let table = Table {
        rt,
        game: &game,
        sheet: &sheet,
    };
    table.play_from(0)
}
