// Groups and rings of any marks on byte columns: causes, answer, the groups' and the rings' column afterwards, the door's bytes, what they mean, and trials; no code.

#![tactic(auto)]
