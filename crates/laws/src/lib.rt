#![tactic(auto)]

// Lemmas that two rooms need, in specs/; there is no code here.
