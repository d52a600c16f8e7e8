// Replay of a recorded trace (paper 02, W10): the machine is stepped along the trace, and the answer says where they
// part. A record has 16 bytes, four little-endian words: PC before, PC after, PSW after and the sum of the general
// registers after.
#![tactic(auto)]

pub mod calls;
mod records;

use bus::Drawing;
use processor::Processor;
use processor_machine::Mode;
use refusal::Refusal;

// How a replay ended.
#[derive(Clone, Copy)]
pub enum End {
    Refused(Refusal),
    Agreed,
    Differed(u32),
    WasHalted,
    WasFatal,
    TurnedFatal,
}

// What the replay of a trace leaves next to the borrowed registers and memories.
#[derive(Clone, Copy)]
pub struct FinishedReplay {
    pub pc: u32,
    pub psw: u32,
    pub mode: Mode,
    pub end: End,
    pub agreed: u64,
}

// How a replay ended, how many records agreed before, and both records afterwards.
#[derive(Clone, Copy)]
pub struct Replayed {
    pub end: End,
    pub agreed: u64,
    pub processor: Processor,
    pub drawing: Drawing,
}
