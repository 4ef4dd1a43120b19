// The console's door to restoring a struck row of a working table, for C, on lent words and a lent answer of sixteen bytes.
// If the lent answer has not sixteen bytes the call returns 0 and writes nothing anywhere; else it returns 1.

#![tactic(auto)]

pub mod restore_door; // restore_door.rt: a row put back into use
