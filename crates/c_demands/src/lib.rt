// The demands of the functions that C calls. The statements stand in specs/; there is no code here.
#![tactic(auto)]
