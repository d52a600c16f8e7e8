// What loads and stores do in region 2: statements in specs/ and their proofs in proofs/. There is nothing to run here.
#![tactic(auto)]
