// The quote of a new price and the breaking price of a row as definitions on byte columns, their trials, and what they mean of the table's spanning trees and routes: specs/ and proofs/, no code.

#![tactic(auto)]
