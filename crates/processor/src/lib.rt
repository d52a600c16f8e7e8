// The processor's public calls: a step, a run, a reset, over the caller's memories. Records go in and come back by
// value; inside, the registers are borrowed.
#![tactic(auto)]

pub mod acceptance;
pub mod calls;
pub mod record;
mod run;

use bus::Drawing;
use bus_timer::TimerLines;
use processor_machine::{Answer, Mode};
use processor_undefined::Undefined;
use refusal::Refusal;

// The processor's record; the request lines and the timer are its last field.
#[derive(Clone, Copy)]
pub struct Processor {
    pub regs: [u32; 32],
    pub pc: u32,
    pub eipc: u32,
    pub eipsw: u32,
    pub fepc: u32,
    pub fepsw: u32,
    pub ecr: u32,
    pub psw: u32,
    pub sr25: u32,
    pub sr29: u32,
    pub sr31: u32,
    pub mode: Mode,
    pub hardware: TimerLines,
}

// What a step did, which bytes that it read are undefined, and both records afterwards.
#[derive(Clone, Copy)]
pub struct Stepped {
    pub answer: Answer,
    pub undefined: Undefined,
    pub processor: Processor,
    pub drawing: Drawing,
}

// Whether a run was refused, how many instructions ended, and both records afterwards.
#[derive(Clone, Copy)]
pub struct Ran {
    pub verdict: Result<(), Refusal>,
    pub count: u64,
    pub processor: Processor,
    pub drawing: Drawing,
}

// Both records.
#[derive(Clone, Copy)]
pub struct Machine {
    pub processor: Processor,
    pub drawing: Drawing,
}

// What a run leaves next to the borrowed registers and memories.
#[derive(Clone, Copy)]
pub struct Finished {
    pub pc: u32,
    pub psw: u32,
    pub mode: Mode,
    pub verdict: Result<(), Refusal>,
    pub count: u64,
}
