// A struck row put back into use, and what the bytes of its door mean; definitions and the theorem (specs/), no code.

#![tactic(auto)]
