// What the line that verdict prints of a table file means, of every text; definitions and the theorem (specs/), no code.

#![tactic(auto)]
