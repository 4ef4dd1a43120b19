// The console's door to changes of working tables: striking, adding, MERGE and carrying a claim for C, on lent words and columns and a lent answer of sixteen bytes.
// If the lent answer has not sixteen bytes the call returns 0 and writes nothing anywhere; else it returns 1.

#![tactic(auto)]

pub mod add_door; // add_door.rt: adding a row
pub mod carry_door; // carry_door.rt: carrying a claim
pub mod merge_door; // merge_door.rt: MERGE
pub mod strike_door; // strike_door.rt: striking a row
