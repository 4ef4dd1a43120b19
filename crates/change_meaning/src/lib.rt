// Packing changes no least total, and a passed claim carried through the numbers is still passed: the statement (specs/) and its proof (proofs/), no code.
// specs/Bytes.antt says what the doors that strike, add, merge and carry return and leave, and what that means.

#![tactic(auto)]
