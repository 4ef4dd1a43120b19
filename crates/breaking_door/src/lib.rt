// The breaking price for C, on plain and on working tables, on byte columns and a lent answer.
// If the lent answer has another length than it should the call returns 0 and writes nothing anywhere; else it returns 1.

#![tactic(auto)]

pub mod breaking_door; // breaking_door.rt: the breaking price
