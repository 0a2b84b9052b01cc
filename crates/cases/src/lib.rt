// What programs that try cases from a file share: the numbers of the file that are left, a side and a game
// among them, trying every case, and tallies of how the cases came out.
#![tactic(auto)]

pub mod fault;
pub mod lists;
pub mod numbers;
pub mod parts;
pub mod tally;
pub mod trying;
