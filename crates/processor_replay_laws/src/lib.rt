// What a replay comes to in steps and against a run: theorems over the definitions, no code.
#![tactic(auto)]
