// Forests of a set of rows, their growing, and a tree built from the forests of runs of rows: definitions (specs/) and theorems (proofs/), no code.

#![tactic(auto)]
