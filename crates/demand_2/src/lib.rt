// The customer's demand 2 as a theorem over the contracts of the crates below. It stands in specs/; there is no code here.
#![tactic(auto)]
