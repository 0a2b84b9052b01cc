// Plays whose answers are known from elsewhere, run: with the answers of another checker, at their most
// steps, and with another game or sheet.
#![tactic(auto)]

mod parts;
mod play_cases;
mod play_limits;

use play_cases::try_plays;
use play_limits::try_limits;

fn main(rt: HostRuntime) -> anyhow::Result<()> {
    run(&rt)
}

fn run(rt: &HostRuntime) -> anyhow::Result<()> {
    try_plays(rt, "plays")?;
    try_limits(rt)
}
