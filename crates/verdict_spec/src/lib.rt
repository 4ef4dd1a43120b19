// What the program verdict prints of a table file, as a definition on the file's bytes, and its trials. No code.

#![tactic(auto)]
