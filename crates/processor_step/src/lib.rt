// A step: an instruction is fetched, decoded and executed. The functions here are for the crate processor, whose calls
// test their arguments and refuse.
#![tactic(auto)]

pub mod step;
