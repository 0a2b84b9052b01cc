#![tactic(auto)]

// The colouring, defined by rounds, and what follows from its definition. There is no code here.
