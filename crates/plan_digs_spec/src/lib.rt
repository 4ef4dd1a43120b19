// The dig list of a plan, and what its door writes. There is no code here; specs/ has the definitions and proofs/ what they mean.

#![tactic(auto)]
