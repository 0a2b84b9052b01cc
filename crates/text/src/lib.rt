// Reading tables and properties from text. It uses no other crate and allocates nothing.
#![tactic(auto)]

pub mod class;
mod line;
mod lines;
pub mod place;
mod shape;
pub mod token;
mod tokens;
