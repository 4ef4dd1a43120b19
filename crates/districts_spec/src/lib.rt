// Districts first, then the city, as a definition on byte columns: its causes, answer and columns, their trials, and what they mean of the table's forests and spanning trees: specs/ and proofs/, no code.

#![tactic(auto)]
