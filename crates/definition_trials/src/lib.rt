// Trials of definitions of the crates below that no trial and no theorem of their own crate holds in place: specs/ and proofs/, no code.
// They stand apart so that a new one costs a check of this crate alone.

#![tactic(auto)]
