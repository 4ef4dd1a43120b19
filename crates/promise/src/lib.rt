// What the checker and the builder promise through their doors, in one file (specs/Promise.antt); its proof from demand 3 (proofs/), no code.

#![tactic(auto)]
