// The best exchange for C, on plain and on working tables.
// If the lent answer has another length than twenty-four bytes the call returns 0 and writes nothing anywhere; else it returns 1.

#![tactic(auto)]

pub mod best_door; // best_door.rt: the best exchange
