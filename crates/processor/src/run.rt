// A run, over registers and memories that were accepted.
ghost use Rattle.std.specs.Prelude.{◌≡◌};
ghost use Rattle.bus.specs.Memories.{held_by, SameLoans};
ghost use Rattle.processor_machine.specs.State.{state_of};
ghost use Rattle.processor.specs.Run.{after_of, run_of, ran_by};
ghost use Rattle.processor.specs.inner.Follows.{Follows};

use crate::Finished;
use bus::LINES_PLACE;
use bus::memories::Memories;
use processor_fast::Progress;
use processor_fast::stretch::stretch;
use processor_interrupt::acceptance::accepts;
use processor_machine::{Answer, Mode};
use processor_step::step;
use refusal::Refusal;

// An ended or trapped instruction counts, and so does an accepted interrupt; anything else stops the run with a verdict.
fn stops(answer: Answer) -> Option<Result<(), Refusal>>
    ensures { result ≡ after_of answer }
{
    match answer {
        Answer::Ended => None,
        Answer::Trapped(_) => None,
        Answer::Interrupted(_) => None,
        Answer::TurnedFatal(_) => Some(Ok(())),
        Answer::WasHalted => Some(Ok(())),
        Answer::WasFatal => Some(Ok(())),
        Answer::Refused(n) => Some(Err(n)),
    }
}

// The common instructions at PC, as long as there are any: in running mode, where no interrupt is accepted.
fn fast(
    memories: &mut Memories<'_>,
    regs: &mut [u32; 32],
    sys: &mut [u32; 8],
    pc: u32,
    psw: u32,
    mode: Mode,
    budget: u64,
) -> Progress
    ensures follows { Follows budget (state_of regs.old sys.old pc psw mode) (held_by memories.old)
        result.count (state_of regs.new sys.new result.pc result.psw mode) (held_by memories.new) }
    ensures pak { memories.new.pak.now ≡ memories.old.pak.now }
    ensures devices { memories.new.device.now ≡ memories.old.device.now }
    ensures same { SameLoans memories.old memories.new }
{
    match mode {
        Mode::Running => {
            if accepts(memories.device[LINES_PLACE], psw, mode) {
                return Progress { count: 0, pc, psw };
            }
            stretch(memories, regs, sys, pc, psw, budget)
        }
        Mode::Halted | Mode::Fatal => Progress { count: 0, pc, psw },
    }
}

// At most `budget` instructions and interrupts: the common ones in a loop of their own, any other by a step.
pub fn run(
    memories: &mut Memories<'_>,
    regs: &mut [u32; 32],
    sys: &mut [u32; 8],
    pc: u32,
    psw: u32,
    mode: Mode,
    budget: u64,
) -> Finished
    ensures done { ran_by regs.new sys.new result (held_by memories.new)
        ≡ run_of budget (state_of regs.old sys.old pc psw mode) (held_by memories.old) }
    ensures same { SameLoans memories.old memories.new }
{
    let mut pc = pc;
    let mut psw = psw;
    let mut mode = mode;
    let mut count: u64 = 0;
    while count < budget {
        let q = fast(memories, regs, sys, pc, psw, mode, budget - count);
        pc = q.pc;
        psw = q.psw;
        count += q.count;
        if budget <= count {
            return Finished {
                pc,
                psw,
                mode,
                verdict: Ok(()),
                count,
            };
        }
        let c = step::step(memories, regs, sys, pc, psw, mode).control;
        pc = c.pc;
        psw = c.psw;
        mode = c.mode;
        match stops(c.answer) {
            None => count += 1,
            Some(verdict) => {
                return Finished {
                    pc,
                    psw,
                    mode,
                    verdict,
                    count,
                };
            }
        }
    }
    Finished {
        pc,
        psw,
        mode,
        verdict: Ok(()),
        count,
    }
}
