// The total of a claim's marked rows, and what the bytes of its doors mean; definitions and the theorem (specs/), no code.

#![tactic(auto)]
