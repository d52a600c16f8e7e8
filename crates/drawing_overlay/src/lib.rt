// The probe next to the program's pictures: definitions in specs/ and their theorems in proofs/. There is nothing to
// run here.
#![tactic(auto)]
