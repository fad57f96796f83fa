// The mathematics of demand 3 for any priority queue. The definitions and the statements are in specs/, the proofs in proofs/.
#![tactic(auto)]
