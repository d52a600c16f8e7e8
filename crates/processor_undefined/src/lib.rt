// Which bytes that a step read are undefined (paper 02, W2): of its first halfword, of its second and of its load.
// They are computed from the halfwords that the step fetched and the registers before it, so that nothing is fetched
// again; a run skips this. These functions are `pub` for the crate processor.
#![tactic(auto)]

mod load;

ghost use Rattle.std.specs.Prelude.{◌≡◌, ℕ, List};
ghost use Rattle.bus.specs.Memory.{Memory};
ghost use Rattle.processor_machine.specs.State.{state_of};
ghost use Rattle.processor_machine.specs.declared.Mode.{Mode};
ghost use Rattle.processor_undefined.specs.Reads.{read_of, undefined_when, none_of, second_undefined_of};

use crate::load::load;
use processor_machine::Answer;
use processor_step::step::Fetched;
use word::Width;

// The masks of a step: bit k of one is set where byte k was read and is undefined.
#[derive(Clone, Copy)]
pub struct Undefined {
    pub first: u32,
    pub second: u32,
    pub load: u32,
}

// A byte that was not read counts as defined.
pub fn none() -> Undefined
    ensures { result ≡ none_of }
{
    Undefined {
        first: 0,
        second: 0,
        load: 0,
    }
}

// The second halfword's, where the first asks for it.
fn second(pc: u32, first: u16) -> u32
    ensures { (m : Memory) → result ≡ second_undefined_of first pc m }
{
    if !processor_decode::two(first) {
        return 0;
    }
    bus_defined::undefined(Width::Half, std::num::wrapping_add_u32(pc, 2))
}

// Those of a step that fetched these halfwords.
fn read(pc: u32, fetched: Fetched, regs: &[u32; 32]) -> Undefined
    ensures { (sys : List ℕ) (psw : ℕ) (mode : Mode) (m : Memory)
        → result ≡ read_of fetched (state_of regs.now sys pc psw mode) m }
{
    Undefined {
        first: bus_defined::undefined(Width::Half, pc),
        second: second(pc, fetched.first),
        load: load(fetched.first, fetched.second, regs),
    }
}

// Those of a step with its answer: it fetched nothing in halted or fatal mode or where it accepted an interrupt, and a
// refusal answers its number alone.
pub fn masks(answer: Answer, pc: u32, fetched: Fetched, regs: &[u32; 32]) -> Undefined
    ensures { (sys : List ℕ) (psw : ℕ) (mode : Mode) (m : Memory)
        → result ≡ undefined_when answer (read_of fetched (state_of regs.now sys pc psw mode) m) }
{
    match answer {
        Answer::Ended => read(pc, fetched, regs),
        Answer::Trapped(_) => read(pc, fetched, regs),
        Answer::Interrupted(_) => none(),
        Answer::TurnedFatal(_) => read(pc, fetched, regs),
        Answer::WasHalted => none(),
        Answer::WasFatal => none(),
        Answer::Refused(_) => none(),
    }
}
