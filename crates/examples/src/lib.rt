// Paper 01's table of worked examples: specs/Rows has the rows and the one statement about them, specs/Branches the two
// branches on every machine; the theorems stand in proofs/.
#![tactic(auto)]
