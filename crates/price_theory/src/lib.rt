// What a change of one row's price does to the least total: definitions (specs/) and theorems (proofs/), no code.

#![tactic(auto)]
