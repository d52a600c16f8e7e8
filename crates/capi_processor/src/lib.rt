// The C boundary of the processor: a step, a run, a reset and a replay.
#![tactic(auto)]

pub mod execution;
pub mod misuse;
pub mod record;
pub mod replays;
pub mod undefined;
