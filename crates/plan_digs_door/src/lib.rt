// The console's door to the dig list of a plan for C, over plain and working tables, in a lent text, with a lent answer of sixteen bytes.
// If the lent answer has not sixteen bytes or the lent text fewer than 6,370 the call returns 0 and writes nothing anywhere; else it returns 1.

#![tactic(auto)]

pub mod plan_digs_door; // plan_digs_door.rt: a plan over a plain and over a working table
