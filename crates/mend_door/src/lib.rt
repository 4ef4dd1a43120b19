// Mending for C, on plain and on working tables, on byte columns, a list of records and sixteen lent bytes.
// If the lent answer isn't sixteen bytes the call returns 0 and writes nothing anywhere; else it returns 1.

#![tactic(auto)]

pub mod mend_door; // mend_door.rt: the doors
