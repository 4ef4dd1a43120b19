// What a reading of a table file means, from its bytes to the trees: statements (specs/) and their proofs (proofs/), no code.

#![tactic(auto)]
