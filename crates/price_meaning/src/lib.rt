// What the sixteen bytes of a breaking price mean of the table's routes and of its least totals; definitions and the theorem (specs/), no code.

#![tactic(auto)]
