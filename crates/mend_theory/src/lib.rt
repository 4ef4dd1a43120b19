// Mending an old claim: definitions (specs/) and theorems (proofs/), no code.

#![tactic(auto)]
