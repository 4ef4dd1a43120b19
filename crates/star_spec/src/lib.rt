// MatrixPath, CST, MST1 and the console's door as definitions on byte columns, the trials and the theorem about them: specs/ and proofs/, no code.

#![tactic(auto)]
