// Exceptions: each has a code, a handler and a restore PC, and enters by the state of NP and EP.
ghost use Rattle.std.specs.Prelude.{◌≡◌, List, ℕ, ◌+◌, ◌*◌, ◌/◌, ◌%◌, ◌<◌};
ghost use Rattle.bus.specs.Memory.{Memory};
ghost use Rattle.processor_machine.specs.State.{state_of, leaves};
ghost use Rattle.processor_machine.specs.Exception.{code_of, handler_of, restore_of, enter_of, raise_of};
ghost use Rattle.processor_machine.specs.FloatCause.{saved_of};

use crate::{Answer, Cause, Control, Mode};

// What an exception stores, and where it goes on: `saved` is the PSW to save.
#[derive(Clone, Copy)]
pub struct Entry {
    pub code: u32,
    pub handler: u32,
    pub restore: u32,
    pub saved: u32,
}

impl Cause {
    pub fn code(self) -> u32
        ensures { (result ≡ code_of self) × (result < 65536) }
    {
        match self {
            Cause::ZeroDivision => 0xFF80,
            Cause::Illegal => 0xFF90,
            Cause::Trap(vector) => 0xFFA0 + vector % 32,
            Cause::Float(cause) => cause.code(),
        }
    }

    // Where a regular exception goes on.
    fn handler(self) -> u32
        ensures { result ≡ handler_of self }
    {
        match self {
            Cause::ZeroDivision => 0xFFFFFF80,
            Cause::Illegal => 0xFFFFFF90,
            Cause::Trap(vector) if vector % 32 < 16 => 0xFFFFFFA0,
            Cause::Trap(_) => 0xFFFFFFB0,
            Cause::Float(_) => 0xFFFFFF60,
        }
    }

    // The restore PC: TRAP's is the next instruction's, the others' their own.
    fn restore(self, pc: u32, next: u32) -> u32
        ensures { result ≡ restore_of self pc next }
    {
        match self {
            Cause::Trap(_) => next,
            _ => pc,
        }
    }

    // The PSW to save: a floating trap sets its flag.
    fn saved(self, psw: u32) -> u32
        ensures { result ≡ saved_of self psw }
    {
        match self {
            Cause::Float(cause) => cause.flagged(psw),
            _ => psw,
        }
    }
}

// An exception of an instruction at pc.
#[tactic(auto, unfolding(crate::specs::Exception::raise_of))]
pub fn raise(sys: &mut [u32; 8], cause: Cause, pc: u32, next: u32, psw: u32) -> Control
    ensures { (regs : List ℕ) (m : Memory)
        → leaves regs sys.new result m
        ≡ raise_of cause next (state_of regs sys.old pc psw Mode.Running) m }
{
    let into = Entry {
        code: cause.code(),
        handler: cause.handler(),
        restore: cause.restore(pc, next),
        saved: cause.saved(psw),
    };
    enter(sys, cause, into, pc, psw)
}

// ECR with a code in its high half, FECC.
fn fatal_cause(ecr: u32, code: u32) -> u32
    requires { code < 65536 }
    ensures { result ≡ ecr % 65536 + code * 65536 }
{
    ecr % 65536 + code * 65536
}

// ECR with a code in its low half, EICC.
fn exception_cause(ecr: u32, code: u32) -> u32
    requires { code < 65536 }
    ensures { result ≡ ecr / 65536 * 65536 + code }
{
    ecr / 65536 * 65536 + code
}

// The entry that every exception takes.
#[tactic(auto, unfolding(crate::specs::Exception::enter_of))]
fn enter(sys: &mut [u32; 8], cause: Cause, into: Entry, pc: u32, psw: u32) -> Control
    requires { into.code < 65536 }
    ensures { (regs : List ℕ) (m : Memory)
        → leaves regs sys.new result m
        ≡ enter_of cause into.code into.handler into.restore into.saved
        (state_of regs sys.old pc psw Mode.Running) m }
{
    if psw / 32768 % 2 == 1 {
        return Control {
            pc,
            psw,
            mode: Mode::Fatal,
            answer: Answer::TurnedFatal(cause),
        };
    }
    if psw / 16384 % 2 == 1 {
        sys[2] = into.restore;
        sys[3] = into.saved;
        sys[4] = fatal_cause(sys[4], into.code);
        return Control {
            pc: 0xFFFFFFD0,
            psw: processor_arithmetic::flag::duplexed(into.saved),
            mode: Mode::Running,
            answer: Answer::Trapped(cause),
        };
    }
    sys[0] = into.restore;
    sys[1] = into.saved;
    sys[4] = exception_cause(sys[4], into.code);
    Control {
        pc: into.handler,
        psw: processor_arithmetic::flag::regular(into.saved),
        mode: Mode::Running,
        answer: Answer::Trapped(cause),
    }
}
