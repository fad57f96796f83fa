// A call that was made, by the contract of its function. The definitions stand in specs/; there is no code here.
#![tactic(auto)]
