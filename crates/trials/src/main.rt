// Cases whose answers are known from elsewhere, run: the rules' worked cases, and games with the answers of another checker.
#![tactic(auto)]

mod coloured;
mod pair_cases;
mod parts;
mod row_cases;
mod worked;

use pair_cases::try_pairs;
use row_cases::try_row_games;
use worked::{try_count, try_length, try_one_row, try_pair_count};

fn main(rt: HostRuntime) -> anyhow::Result<()> {
    run(&rt)
}

fn run(rt: &HostRuntime) -> anyhow::Result<()> {
    try_one_row(rt)?;
    for count in [0, 1, 16384, 16385] {
        try_count(rt, count)?;
    }
    try_pair_count(rt, 8191, 0, 8192)?;
    try_pair_count(rt, 8192, 0, 8192)?;
    try_pair_count(rt, 8192, 8192, 8192)?;
    try_length(rt)?;
    try_row_games(rt, "rows")?;
    try_pairs(rt, "pairs")
}
