// What a call of star_read_table means, from the bytes of a file to the trees: specs/TableText, specs/Bytes. No code.

#![tactic(auto)]
