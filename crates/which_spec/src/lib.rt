// Which of two plans stands, as a definition on byte columns, its trials, and what it means of the table's spanning trees: specs/ and proofs/, no code.

#![tactic(auto)]
