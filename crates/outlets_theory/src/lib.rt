// Spanning trees with a given number of rows at a vertex: definitions (specs/) and theorems (proofs/), no code.

#![tactic(auto)]
