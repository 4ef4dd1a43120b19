// The import of SteinLib STP texts as definitions: the reader of a text's words, and what an import answers and leaves.
// What it is worth (specs/Accepted.antt) and the trials (specs/Trials.antt) are theorems over them.

#![tactic(auto)]
