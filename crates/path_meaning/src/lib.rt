// What the bytes and the matrix that star_paths and star_work_paths leave mean of the table's trees: the statement (specs/) and its proof (proofs/), no code.

#![tactic(auto)]
