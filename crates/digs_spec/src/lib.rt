// The dig list as a text, a reader of such texts, and the theorem that what is printed reads back: definitions and theorems alone.

#![tactic(auto)]
