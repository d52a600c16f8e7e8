// The C boundary (include/vb.h): numbers, slices and #[repr(C)] records over the public calls.
#![tactic(auto)]

pub mod accesses;
pub mod brightness;
pub mod execution;
pub mod instructions;
pub mod lists;
pub mod pictures;
pub mod pixel_bytes;
pub mod probes;
pub mod replays;
pub mod states;
pub mod ticks;
