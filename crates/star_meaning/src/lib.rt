// Demand 3, the theorem about CST and MST1 over every accepted table: its statement (specs/) and its proof (proofs/), no code.

#![tactic(auto)]
