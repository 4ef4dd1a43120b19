// The console's door to the import of STP texts for C, on lent columns and a lent answer of sixteen bytes.
// If the lent answer has not sixteen bytes the call returns 0 and writes nothing anywhere; else it returns 1.

#![tactic(auto)]

pub mod import_door; // import_door.rt: the import
