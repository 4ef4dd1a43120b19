// Connections at a vertex for C: a least spanning tree with exactly t rows at r, on plain and on working tables.
// If the lent answer has another length than sixteen bytes the call returns 0 and writes nothing anywhere; else it returns 1.

#![tactic(auto)]

pub mod outlets_door; // outlets_door.rt: the tree with exactly t rows at r
