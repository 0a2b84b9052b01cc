// What a game is, who wins it, what a sheet for it is, and the check that accepts the right ones.
#![tactic(auto)]

pub mod arena;
pub mod check;
pub mod reads;
pub mod refusal;
pub mod sheet;
pub mod side;
