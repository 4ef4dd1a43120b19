// MST1 for C, over plain and over working tables, on lent columns and a lent answer of sixteen bytes.
// If the lent answer has not sixteen bytes the call returns 0 and writes nothing anywhere; else it returns 1.

#![tactic(auto)]

pub mod mst1_door; // mst1_door.rt: over a plain table
pub mod work_mst1_door; // work_mst1_door.rt: over a working table
