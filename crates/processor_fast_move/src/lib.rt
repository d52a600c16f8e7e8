// The common instructions that load, store, branch and jump, for the fast path (crate processor_fast). The functions
// here are for that crate alone.
#![tactic(auto)]

pub mod branch;
pub mod transfer;
