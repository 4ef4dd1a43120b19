// What the bytes and the columns that star_import leaves mean: the statement (specs/) and its proof (proofs/), no code.

#![tactic(auto)]
