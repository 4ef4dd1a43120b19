// No code: the forest of the rows that are not at a vertex, and that every row that comes in by an exchange of least cost is one of it.

#![tactic(auto)]
