// The processor while it runs: its 32 general registers and eight system registers, both the caller's, PC and PSW; and
// the exceptions. The functions here are for the crates above; the calls that test their arguments and refuse are those
// of the crate processor.
#![tactic(auto)]

pub mod exception;
pub mod floating;
pub mod register;
pub mod system;

ghost use Rattle.std.specs.Prelude.{◌≡◌};
ghost use Rattle.processor_machine.specs.State.{ended_at};

use crate::floating::FloatCause;
use refusal::Refusal;

// The machine's mode.
#[derive(Clone, Copy)]
pub enum Mode {
    Running,
    Halted,
    Fatal,
}

// Why an instruction raised an exception; TRAP carries its vector.
#[derive(Clone, Copy)]
pub enum Cause {
    ZeroDivision,
    Illegal,
    Trap(u32),
    Float(FloatCause),
}

// What a step did; an accepted interrupt carries its level.
#[derive(Clone, Copy)]
pub enum Answer {
    Ended,
    Trapped(Cause),
    Interrupted(u32),
    TurnedFatal(Cause),
    WasHalted,
    WasFatal,
    Refused(Refusal),
}

// What a step leaves next to the caller's registers and memories.
#[derive(Clone, Copy)]
pub struct Control {
    pub pc: u32,
    pub psw: u32,
    pub mode: Mode,
    pub answer: Answer,
}

impl Control {
    // An instruction that ended, going on at pc.
    pub fn ended(pc: u32, psw: u32) -> Control
        ensures { result ≡ ended_at pc psw }
    {
        Control {
            pc,
            psw,
            mode: Mode::Running,
            answer: Answer::Ended,
        }
    }
}
