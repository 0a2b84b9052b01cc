// Plays: a sheet answers for the house, a person for the guest, and each call takes the turn that it is made
// on by value.
#![tactic(auto)]

mod board;
pub mod calls;
mod guest;
mod house;
pub mod refusal;
pub mod set_out;
mod steps;
pub mod turn;
