// Graphs, spanning trees and their weights: definitions (specs/) and theorems (proofs/), no code.

#![tactic(auto)]
