// No code: the rows that could come in for each row at a vertex, as source 002 keeps them, the exchange of least cost found from them, and what an exchange does to them.

#![tactic(auto)]
