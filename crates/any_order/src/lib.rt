// Theorems over the contracts of the crates below: claims may come in any order. They stand in specs/; there is no code here.
#![tactic(auto)]
