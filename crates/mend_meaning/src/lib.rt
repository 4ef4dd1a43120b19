// What a mended claim and its records are worth, over every accepted table: the theorem that mend_spec/specs/Means.antt states. No code.

#![tactic(auto)]
