// The bytes a pixel answers to: definitions in specs/ and their theorems in proofs/. There is nothing to run here.
#![tactic(auto)]
