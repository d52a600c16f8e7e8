// Strips in any order, and drawings of two frames swapped: definitions in specs/ and their theorems in proofs/. There
// is nothing to run here.
#![tactic(auto)]
