// Statements about interrupts in steps and runs (specs/) and their proofs; there is no code here.
#![tactic(auto)]
