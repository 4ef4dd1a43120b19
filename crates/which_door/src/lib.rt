// Which of two plans stands, for C, on plain and on working tables. It returns 1 for the first plan and 2 for the second; 0 on a refusal, and where the lent answer has not sixteen bytes, and then nothing is written.

#![tactic(auto)]

pub mod which_door; // which_door.rt: the two doors
