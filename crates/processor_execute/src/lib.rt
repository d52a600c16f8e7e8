// What each instruction does to the processor and the caller's memories. The functions here are for the crates above;
// the calls that test their arguments and refuse are those of the crate processor.
#![tactic(auto)]

mod compute;
mod control;
pub mod execute;
mod floating;
mod jump;
mod memory;
mod operation;
