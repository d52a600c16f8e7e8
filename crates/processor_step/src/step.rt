// A step: an interrupt is accepted, or the instruction at PC is fetched once, decoded and executed.
ghost use Rattle.std.specs.Prelude.{◌≡◌, ◌<◌, ℕ, List};
ghost use Rattle.bus.specs.Memory.{Memory};
ghost use Rattle.bus.specs.Memories.{held_by, SameLoans};
ghost use Rattle.processor_machine.specs.State.{state_of, stepped_of, leaves};
ghost use Rattle.processor_machine.specs.declared.Mode.{Mode};
ghost use Rattle.processor_interrupt.specs.Interrupt.{interrupted_of};
ghost use Rattle.processor_step.specs.Step.{first_of, second_of, next_of, running_step_of, instruction_step_of, step_of};
ghost use Rattle.processor_step.specs.Step.{fetched_at, not_fetched, fetched_in_of, fetched_of};

use bus::LINES_PLACE;
use bus::memories::Memories;
use processor_execute::execute::execute;
use processor_interrupt::acceptance::accepted;
use processor_interrupt::entry::enter;
use processor_machine::{Answer, Control, Mode};
use refusal::Refusal;
use word::Width;

// The halfwords that a step fetched; 0 for one that it did not.
#[derive(Clone, Copy)]
pub struct Fetched {
    pub first: u16,
    pub second: u16,
}

// A step that fetches nothing.
const NOT_FETCHED: Fetched = Fetched {
    first: 0,
    second: 0,
};

// What a step leaves next to the caller's registers and memories, and what it fetched. Which bytes of that are
// undefined is computed separately (the crate processor_undefined): a run skips it.
#[derive(Clone, Copy)]
pub struct Performed {
    pub control: Control,
    pub fetched: Fetched,
}

// The halfword at an address.
fn half(memories: &Memories<'_>, pc: u32) -> u16
    ensures { result ≡ first_of pc (held_by memories.now) }
{
    memories.load(Width::Half, pc) as u16
}

// The second halfword, where the first asks for it.
#[tactic(auto, unfolding(crate::specs::Step::second_of))]
fn second(memories: &Memories<'_>, pc: u32, two: bool) -> u16
    ensures { result ≡ second_of two pc (held_by memories.now) }
{
    if two {
        half(memories, pc.wrapping_add(2))
    } else {
        0
    }
}

// The address of the following instruction.
#[tactic(auto, unfolding(crate::specs::Step::next_of))]
fn following(pc: u32, two: bool) -> u32
    ensures { result ≡ next_of two pc }
{
    pc.wrapping_add(if two { 4 } else { 2 })
}

// A step in running mode.
#[tactic(auto, unfolding(crate::specs::Step::running_step_of))]
fn running(
    memories: &mut Memories<'_>,
    regs: &mut [u32; 32],
    sys: &mut [u32; 8],
    pc: u32,
    psw: u32,
) -> Performed
    ensures done { leaves regs.new sys.new result.control (held_by memories.new)
        ≡ running_step_of (state_of regs.old sys.old pc psw Mode.Running)
        (held_by memories.old) }
    ensures fetched { result.fetched ≡ fetched_at pc (held_by memories.old) }
    ensures same { SameLoans memories.old memories.new }
{
    let first = half(memories, pc);
    let two = processor_decode::two(first);
    let second = second(memories, pc, two);
    let next = following(pc, two);
    let control = match processor_decode::decode(first, second) {
        Some(i) => execute(memories, regs, sys, i, pc, next, psw),
        None => Control {
            pc,
            psw,
            mode: Mode::Running,
            answer: Answer::Refused(Refusal::NotModelled),
        },
    };
    Performed {
        control,
        fetched: Fetched { first, second },
    }
}

// A step with no interrupt accepted, in any mode.
#[tactic(auto, unfolding(crate::specs::Step::instruction_step_of))]
fn instruction(
    memories: &mut Memories<'_>,
    regs: &mut [u32; 32],
    sys: &mut [u32; 8],
    pc: u32,
    psw: u32,
    mode: Mode,
) -> Performed
    ensures done { leaves regs.new sys.new result.control (held_by memories.new)
        ≡ instruction_step_of (state_of regs.old sys.old pc psw mode)
        (held_by memories.old) }
    ensures fetched { result.fetched ≡ fetched_in_of mode pc (held_by memories.old) }
    ensures same { SameLoans memories.old memories.new }
{
    let answer = match mode {
        Mode::Running => return running(memories, regs, sys, pc, psw),
        Mode::Halted => Answer::WasHalted,
        Mode::Fatal => Answer::WasFatal,
    };
    Performed {
        control: Control {
            pc,
            psw,
            mode,
            answer,
        },
        fetched: NOT_FETCHED,
    }
}

// The step that accepts an interrupt of a level: nothing is fetched.
fn interrupt(sys: &mut [u32; 8], level: u32, pc: u32, psw: u32) -> Performed
    requires { level < 5 }
    ensures done { (regs : List ℕ) (mode : Mode) (m : Memory)
        → leaves regs sys.new result.control m
        ≡ stepped_of (Answer.Interrupted level) (interrupted_of level (state_of regs sys.old pc psw mode)) m }
    ensures fetched { result.fetched ≡ not_fetched }
{
    let entered = enter(sys, level, pc, psw);
    Performed {
        control: Control {
            pc: entered.pc,
            psw: entered.psw,
            mode: Mode::Running,
            answer: Answer::Interrupted(level),
        },
        fetched: NOT_FETCHED,
    }
}

// A step in any mode. The lines stand first: with none raised nothing else is tested.
#[tactic(auto, unfolding(crate::specs::Step::step_of, crate::specs::Step::fetched_of))]
pub fn step(
    memories: &mut Memories<'_>,
    regs: &mut [u32; 32],
    sys: &mut [u32; 8],
    pc: u32,
    psw: u32,
    mode: Mode,
) -> Performed
    ensures done { leaves regs.new sys.new result.control (held_by memories.new)
        ≡ step_of (state_of regs.old sys.old pc psw mode) (held_by memories.old) }
    ensures fetched { result.fetched ≡ fetched_of (state_of regs.old sys.old pc psw mode)
        (held_by memories.old) }
    ensures same { SameLoans memories.old memories.new }
{
    match accepted(memories.device[LINES_PLACE], psw, mode) {
        Some(level) => interrupt(sys, level, pc, psw),
        None => instruction(memories, regs, sys, pc, psw, mode),
    }
}
