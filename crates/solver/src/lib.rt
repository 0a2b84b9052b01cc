// The colouring: it fills in a game's sheet.
#![tactic(auto)]

pub mod colour;
mod level;
mod moves;
