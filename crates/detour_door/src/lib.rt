// The dearest of each detour for C, on plain and on working tables.
// If the lent answer has another length than sixteen bytes the call returns 0 and writes nothing anywhere; else it returns 1.

#![tactic(auto)]

pub mod detour_door; // detour_door.rt: the dearest of each detour
