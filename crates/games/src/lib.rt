// Ways to make a game.
#![tactic(auto)]

pub mod pair;
pub mod pair_fault;
pub mod row;
mod row_rules;
pub mod rows;
mod seat;
pub mod swapped;
