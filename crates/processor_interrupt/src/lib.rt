// Interrupts: which request line is accepted, and the entry. The lines are five bits, bit n that of level n. The
// functions here are for the crate processor_step.
#![tactic(auto)]

pub mod acceptance;
pub mod entry;

// PC and PSW as an interrupt enters.
#[derive(Clone, Copy)]
pub struct Entered {
    pub pc: u32,
    pub psw: u32,
}
