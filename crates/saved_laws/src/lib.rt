// What a salvage or a move writes is a saved state, and what a salvage replaces is at reset: statements in specs/ and
// their theorems in proofs/, over the crates saved, saved_move and saved_salvage. There is nothing to run here.
#![tactic(auto)]
