// A step, a run and a reset.
ghost use Rattle.std.specs.Prelude.{◌≡◌, ◌<◌};
ghost use Rattle.bus.specs.Memory.{Memory};
ghost use Rattle.bus.specs.Lent.{entering_with, leaving_with};
ghost use Rattle.processor.specs.Calls.{reset_of};
ghost use Rattle.capi_processor.specs.Record.{processor_out};
ghost use Rattle.capi_processor.specs.Execution.{step_gives, step_answered, step_at, run_gives, run_at};
ghost use Rattle.capi_processor.specs.inner.Level.{answer_level};

use crate::misuse::misuse;
use crate::record::{VbProcessor, processor_in, processor_out};
use crate::undefined::{VbUndefined, undefined_out};
use bus::Drawing;
use capi_bus::accesses::VbDrawing;
use processor_machine::Answer;
use refusal::verdict_number;

#[repr(C)]
#[derive(Clone, Copy)]
pub struct VbStepped {
    pub refusal: u32,
    pub answer: u32,
    pub code: u32,
    pub undefined: VbUndefined,
    pub processor: VbProcessor,
    pub drawing: VbDrawing,
}

#[repr(C)]
#[derive(Clone, Copy)]
pub struct VbRan {
    pub refusal: u32,
    pub count: u64,
    pub processor: VbProcessor,
    pub drawing: VbDrawing,
}

#[repr(C)]
#[derive(Clone, Copy)]
pub struct VbMachine {
    pub processor: VbProcessor,
    pub drawing: VbDrawing,
}

// The three numbers of a step's answer.
#[derive(Clone, Copy)]
struct StepNumbers {
    refusal: u32,
    answer: u32,
    code: u32,
}

fn numbers(refusal: u32, answer: u32, code: u32) -> StepNumbers
    ensures { (result.refusal ≡ refusal) × (result.answer ≡ answer) × (result.code ≡ code) }
{
    StepNumbers {
        refusal,
        answer,
        code,
    }
}

// An interrupt's code is 0xFE00 and 16 times its level.
fn answered(answer: Answer) -> StepNumbers
    requires { answer_level answer < 5 }
    ensures { (u : VbUndefined) (p : VbProcessor) (m : Memory)
        → step_gives result.refusal result.answer result.code u p m ≡ step_answered answer u p m }
{
    match answer {
        Answer::Ended => numbers(0, 0, 0),
        Answer::Trapped(cause) => numbers(0, 1, cause.code()),
        Answer::TurnedFatal(cause) => numbers(0, 2, cause.code()),
        Answer::WasHalted => numbers(0, 3, 0),
        Answer::WasFatal => numbers(0, 4, 0),
        Answer::Interrupted(level) => numbers(0, 5, 0xFE00 + 16 * level),
        Answer::Refused(n) => numbers(u32::from(n), 0, 0),
    }
}

pub fn step(
    rom: &[u8],
    wram: &mut [u8],
    vram: &mut [u8],
    pak: &mut [u8],
    processor: VbProcessor,
    drawing: VbDrawing,
) -> VbStepped
    ensures { step_gives result.refusal result.answer result.code result.undefined result.processor
        (leaving_with rom.now wram.new vram.new pak.new result.drawing.regs)
        ≡ step_at processor (entering_with rom.now wram.old vram.old pak.old drawing.regs) }
{
    let misused = misuse(rom, wram, vram, pak, processor, drawing);
    if misused != 0 {
        return VbStepped {
            refusal: misused,
            answer: 0,
            code: 0,
            undefined: VbUndefined {
                first: 0,
                second: 0,
                load: 0,
            },
            processor,
            drawing,
        };
    }
    let regs = drawing.regs;
    let p = processor_in(processor);
    let s = processor::calls::step(rom, wram, vram, pak, p, Drawing { regs });
    let answer = s.answer;
    let undefined = s.undefined;
    let after = s.processor;
    let device = s.drawing.regs;
    let reported = answered(answer);
    VbStepped {
        refusal: reported.refusal,
        answer: reported.answer,
        code: reported.code,
        undefined: undefined_out(undefined),
        processor: processor_out(after),
        drawing: VbDrawing { regs: device },
    }
}

pub fn run(
    rom: &[u8],
    wram: &mut [u8],
    vram: &mut [u8],
    pak: &mut [u8],
    processor: VbProcessor,
    drawing: VbDrawing,
    budget: u64,
) -> VbRan
    ensures { run_gives result.refusal result.count result.processor (leaving_with rom.now wram.new vram.new pak.new result.drawing.regs)
        ≡ run_at budget processor (entering_with rom.now wram.old vram.old pak.old drawing.regs) }
{
    let misused = misuse(rom, wram, vram, pak, processor, drawing);
    if misused != 0 {
        return VbRan {
            refusal: misused,
            count: 0,
            processor,
            drawing,
        };
    }
    let regs = drawing.regs;
    let p = processor_in(processor);
    let s = processor::calls::run(rom, wram, vram, pak, p, Drawing { regs }, budget);
    let verdict = s.verdict;
    let after = s.processor;
    let device = s.drawing.regs;
    VbRan {
        refusal: verdict_number(verdict),
        count: s.count,
        processor: processor_out(after),
        drawing: VbDrawing { regs: device },
    }
}

pub fn reset() -> VbMachine
    ensures { (result.processor ≡ processor_out reset_of.processor) × (result.drawing.regs ≡ reset_of.drawing.regs) }
{
    let m = processor::calls::reset();
    let p = m.processor;
    let regs = m.drawing.regs;
    VbMachine {
        processor: processor_out(p),
        drawing: VbDrawing { regs },
    }
}
