// A play on a small game, by its sheet and a list of calls.
#![tactic(auto)]

mod plays;

use examples::small::{right_sheet, small_game};
use plays::show_play;

fn main(rt: HostRuntime) -> anyhow::Result<()> {
    tour(&rt)
}

fn tour(rt: &HostRuntime) -> anyhow::Result<()> {
    let game = small_game(rt.alloc())?;
    println!(rt; "A play from 1 by its sheet:")?;
    show_play(rt, &game, &right_sheet())
}
