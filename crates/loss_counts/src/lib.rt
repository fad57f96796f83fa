// Theorem over the contracts of the crates below: a counter of losses is the losses that the answers told since its last reset, in every list of calls. It
// stands in specs/; there is no code here.
#![tactic(auto)]
