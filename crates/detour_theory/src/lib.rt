// Exchanges of one row of a spanning tree for one outside it: the dearest row of each detour, the row that replaces each row of the tree, and the exchange that saves most. Definitions (specs/) and theorems (proofs/), no code.

#![tactic(auto)]
