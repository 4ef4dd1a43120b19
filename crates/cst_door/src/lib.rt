// CST for C, over plain and over working tables, on lent columns and a lent answer of sixteen bytes.
// If the lent answer has not sixteen bytes the call returns 0 and writes nothing anywhere; else it returns 1.

#![tactic(auto)]

pub mod cst_door; // cst_door.rt: the verdict
pub mod other_door; // other_door.rt: with an exchange that gives another tree of the same weight
pub mod work_cst_door; // work_cst_door.rt: the verdict over a working table
pub mod work_other_door; // work_other_door.rt: with the exchange, over a working table
