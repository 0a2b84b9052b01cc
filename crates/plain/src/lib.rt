// The plain play, which tells the rules of plays over the positions that a play has entered, and what the
// calls of a play answer. There are types and definitions here, and what follows from the definitions is
// proved in proofs/; the calls themselves are in crate play.
#![tactic(auto)]

pub mod call;
pub mod standing;
