// The console's door to the total of a claim's marked rows, for C, over plain and working tables, with a lent answer of sixteen bytes.
// If the lent answer has not sixteen bytes the call returns 0 and writes nothing; else it returns 1.

#![tactic(auto)]

pub mod total_door; // total_door.rt: the doors over a plain and a working table
