// The console's door to dig lists for C: of plain and working tables and of STP texts, in a lent text, with a lent answer of sixteen bytes.
// If the lent answer has not sixteen bytes or the lent text fewer than 6,370 the call returns 0 and writes nothing anywhere; else it returns 1.

#![tactic(auto)]

pub mod digs_door; // digs_door.rt: the list of a plain and of a working table
pub mod digs_text_door; // digs_text_door.rt: a text's list
