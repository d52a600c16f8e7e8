// The C boundary of the bus: loads and stores, a list of accesses, probes and a tick, over the public calls.
#![tactic(auto)]

pub mod accesses;
pub mod hardware;
pub mod lists;
pub mod misuse;
pub mod probes;
pub mod ticks;
