// Theorem over the contracts of the crates below: every answer but the compared count is the one that the layout before the sorted lists gave. It stands in
// specs/; there is no code here.
#![tactic(auto)]
