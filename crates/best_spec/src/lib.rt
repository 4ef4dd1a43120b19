// The best exchange on byte columns: the definitions, the doors' bytes, what they mean and the trials (specs/), and their proofs (proofs/); no code.

#![tactic(auto)]
