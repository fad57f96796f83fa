// Theorem over the contracts of the crates below: what is counted at a port equals a recount, in every list of calls. It stands in specs/; there is no code
// here.
#![tactic(auto)]
