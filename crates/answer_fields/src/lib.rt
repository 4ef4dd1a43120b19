// The fields of the answers of CST and MST1, for the doors of plain and of working tables.

#![tactic(auto)]

pub mod built; // built.rt: MST1
pub mod checked; // checked.rt: CST with the exchange beside the verdict
pub mod verdict; // verdict.rt: CST
