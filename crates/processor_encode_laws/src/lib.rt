// Encoding and decoding undo each other: statements in specs/ and their theorems in proofs/. There is nothing to run
// here.
#![tactic(auto)]
