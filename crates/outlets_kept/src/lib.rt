// The row at a vertex that would go out for each row of a table, kept over the exchanges, and the exchange of least cost read from what is kept: specs/ and proofs/, no code.

#![tactic(auto)]
