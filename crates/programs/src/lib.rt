// The programs diglist and readstp as functions that give their exit status: the programs of these names end with it, and `programs_door` hands them to C.
// An error of reading or of writing is told on the handle for errors. Where the reader and the writer say which bytes they have, a contract says what is printed; standard input and output say
// nothing, and what is known of them ends here: no contract says which bytes were read, nor what the system does with those that are written.

#![tactic(auto)]

pub mod diglist; // diglist.rt: the dig list of a text
pub mod readstp; // readstp.rt: what a text holds
