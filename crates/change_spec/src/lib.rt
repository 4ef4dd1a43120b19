// Working tables as definitions: rows in use beside columns of 1,024 rows, and what striking, adding, MERGE and carrying a claim refuse, answer and leave.
// What they are worth (specs/Meaning.antt) and the trials (specs/Trials.antt) are theorems over them.

#![tactic(auto)]
