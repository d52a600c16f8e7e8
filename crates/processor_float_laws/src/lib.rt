// Laws of the floating instructions over whole numbers: statements in specs/, their proofs in proofs/. No code.
#![tactic(auto)]
