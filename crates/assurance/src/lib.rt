// The theorems over the contracts of the crates below. They stand in specs/; there is no code here.
#![tactic(auto)]
