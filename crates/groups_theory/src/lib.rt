// Groups of vertices that a set of rows joins, and the rows of it that close a ring: definitions (specs/) and theorems (proofs/), no code.

#![tactic(auto)]
