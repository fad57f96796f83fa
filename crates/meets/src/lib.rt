// The code meets the contracts that the demands cite. What is proved stands in specs/, the proofs in proofs/; there is no code here.
#![tactic(auto)]
