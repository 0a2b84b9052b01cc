// What the tours, the trials and the timing share: rows and entries written in a line, a small game with a
// right sheet, and the sheet that the colouring makes.
#![tactic(auto)]

pub mod parts;
pub mod sheet;
pub mod small;
