// Trials of the definitions of MatrixPath, CST and MST1 on tables of many rows: specs/ and proofs/, no code.

#![tactic(auto)]
