// MatrixPath for C, over plain and over working tables, on lent columns, a lent matrix and a lent answer of sixteen bytes.
// If the lent answer has not sixteen bytes the call returns 0 and writes nothing anywhere; else it returns 1.

#![tactic(auto)]

pub mod paths_door; // paths_door.rt: over a plain table
pub mod work_paths_door; // work_paths_door.rt: over a working table
