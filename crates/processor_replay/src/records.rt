// The records of a trace, replayed over registers and memories that were accepted.
ghost use Rattle.std.specs.Prelude.{◌≡◌, ◌+◌, ◌*◌, ◌<◌, length};
ghost use Rattle.bus.specs.Memories.{held_by, SameLoans};
ghost use Rattle.processor_machine.specs.State.{state_of};
ghost use Rattle.processor_replay.specs.Replay.{record_with, records_of, record_at, register_sum_of};
ghost use Rattle.processor_replay.specs.Replay.{first_difference_of};
ghost use Rattle.processor_replay.specs.Replay.{progress_of, replay_of, replayed_by};

use crate::{End, FinishedReplay};
use bus::memories::Memories;
use processor_machine::{Answer, Mode};
use processor_step::step;

// An ended or trapped instruction and an accepted interrupt are completed steps; anything else ends the replay,
// whatever the record says.
fn ends(answer: Answer) -> Option<End>
    ensures { result ≡ progress_of answer }
{
    match answer {
        Answer::Ended => None,
        Answer::Trapped(_) => None,
        Answer::Interrupted(_) => None,
        Answer::TurnedFatal(_) => Some(End::TurnedFatal),
        Answer::WasHalted => Some(End::WasHalted),
        Answer::WasFatal => Some(End::WasFatal),
        Answer::Refused(n) => Some(End::Refused(n)),
    }
}

// The sum of the general registers, mod 2^32.
fn sum(regs: &[u32; 32]) -> u32
    ensures { result ≡ register_sum_of regs.now }
{
    let mut s: u32 = 0;
    for i in 0..32 {
        s = s.wrapping_add(regs[i]);
    }
    s
}

// The first word in which record k differs from a step's; 4 where none does.
fn difference(trace: &[u8], k: usize, before: u32, after: u32, psw: u32, sum: u32) -> u32
    requires { 16 * k + 15 < length trace.now }
    ensures { result ≡ first_difference_of (record_at trace.now k) (record_with before after psw sum) }
{
    let i = 16 * k;
    if word::word_at(trace, i) != before {
        return 0;
    }
    if word::word_at(trace, i + 4) != after {
        return 1;
    }
    if word::word_at(trace, i + 8) != psw {
        return 2;
    }
    if word::word_at(trace, i + 12) != sum {
        return 3;
    }
    4
}

// Every record of the trace, or as many as agree.
pub fn replay(
    memories: &mut Memories<'_>,
    regs: &mut [u32; 32],
    sys: &mut [u32; 8],
    pc: u32,
    psw: u32,
    mode: Mode,
    trace: &[u8],
) -> FinishedReplay
    ensures done { replayed_by regs.new sys.new result (held_by memories.new)
        ≡ replay_of (records_of trace.now) 0 trace.now
        (state_of regs.old sys.old pc psw mode) (held_by memories.old) }
    ensures same { SameLoans memories.old memories.new }
{
    let n = trace.len() / 16;
    let mut pc = pc;
    let mut psw = psw;
    let mut mode = mode;
    for k in 0..n {
        let before = pc;
        let c = step::step(memories, regs, sys, pc, psw, mode).control;
        pc = c.pc;
        psw = c.psw;
        mode = c.mode;
        match ends(c.answer) {
            Some(end) => {
                return FinishedReplay {
                    pc,
                    psw,
                    mode,
                    end,
                    agreed: k as u64,
                };
            }
            None => {
                let s = sum(regs);
                let word = difference(trace, k, before, pc, psw, s);
                if word < 4 {
                    return FinishedReplay {
                        pc,
                        psw,
                        mode,
                        end: End::Differed(word),
                        agreed: k as u64,
                    };
                }
            }
        }
    }
    FinishedReplay {
        pc,
        psw,
        mode,
        end: End::Agreed,
        agreed: n as u64,
    }
}
