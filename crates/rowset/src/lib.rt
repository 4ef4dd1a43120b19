// Sets of positions, counted from 1: what slices, row sets and vertex sets have in common. Definitions (specs/) and their laws (proofs/) alone, no code.

#![tactic(auto)]
