#![tactic(auto)]

// What games made of games mean. The definitions stand in specs/, and what follows from them is proved in proofs/.
