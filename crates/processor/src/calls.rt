// A step, a run and a reset. Refusals 1 to 5 are tested once, here.
ghost use Rattle.std.specs.Prelude.{◌≡◌};
ghost use Rattle.bus.specs.Lent.{entering_with, leaving_with};
ghost use Rattle.processor.specs.Acceptance.{acceptance_in};
ghost use Rattle.processor.specs.Calls.{done_of, ran_of, checked_step_of, checked_run_of, reset_of};

use crate::acceptance::acceptance;
use crate::record::{joined, system};
use crate::{Machine, Processor, Ran, Stepped, run};
use bus::Drawing;
use bus::device::{device_of, drawing_in};
use bus::memories::Memories;
use bus_timer::TimerLines;
use processor_machine::{Answer, Mode};
use processor_step::step;
use refusal::Refusal;

// The lowest of refusals 1 to 5 that a step or a run with these arguments meets. Internal: `pub`
// for the crates above.
pub fn verdict(
    rom: &[u8],
    wram: &[u8],
    vram: &[u8],
    pak: &[u8],
    processor: Processor,
    drawing: Drawing,
) -> Result<(), Refusal>
    ensures { result ≡ acceptance_in processor (entering_with rom.now wram.now vram.now pak.now drawing.regs) }
{
    let regs = processor.regs;
    let sys = system(processor);
    let registers = drawing.regs;
    let hardware = processor.hardware;
    let device = device_of(registers, hardware);
    let pc = processor.pc;
    let psw = processor.psw;
    acceptance(
        rom.len(),
        wram.len(),
        vram.len(),
        pak.len(),
        &device,
        &regs,
        &sys,
        pc,
        psw,
    )
}

// One step. Which bytes that it read are undefined is computed from what it fetched and the registers before it.
pub fn step(
    rom: &[u8],
    wram: &mut [u8],
    vram: &mut [u8],
    pak: &mut [u8],
    processor: Processor,
    drawing: Drawing,
) -> Stepped
    ensures { done_of result.answer result.undefined result.processor (leaving_with rom.now wram.new vram.new pak.new result.drawing.regs)
        ≡ checked_step_of processor (entering_with rom.now wram.old vram.old pak.old drawing.regs) }
{
    let mut regs = processor.regs;
    let mut sys = system(processor);
    let registers = drawing.regs;
    let hardware = processor.hardware;
    let mut device = device_of(registers, hardware);
    let pc = processor.pc;
    let psw = processor.psw;
    let mode = processor.mode;
    match acceptance(
        rom.len(),
        wram.len(),
        vram.len(),
        pak.len(),
        &device,
        &regs,
        &sys,
        pc,
        psw,
    ) {
        Err(n) => Stepped {
            answer: Answer::Refused(n),
            undefined: processor_undefined::none(),
            processor,
            drawing,
        },
        Ok(()) => {
            let mut memories = Memories {
                rom,
                wram,
                vram,
                pak,
                device: &mut device,
            };
            let t = step::step(&mut memories, &mut regs, &mut sys, pc, psw, mode);
            let c = t.control;
            let fetched = t.fetched;
            let answer = c.answer;
            let before = processor.regs;
            let undefined = processor_undefined::masks(answer, pc, fetched, &before);
            let mode = c.mode;
            let processor = joined(regs, sys, c.pc, c.psw, mode, &device);
            let registers = drawing_in(&device);
            Stepped {
                answer,
                undefined,
                processor,
                drawing: Drawing { regs: registers },
            }
        }
    }
}

// At most `budget` instructions and interrupts.
pub fn run(
    rom: &[u8],
    wram: &mut [u8],
    vram: &mut [u8],
    pak: &mut [u8],
    processor: Processor,
    drawing: Drawing,
    budget: u64,
) -> Ran
    ensures { ran_of result.verdict result.count result.processor (leaving_with rom.now wram.new vram.new pak.new result.drawing.regs)
        ≡ checked_run_of budget processor (entering_with rom.now wram.old vram.old pak.old drawing.regs) }
{
    let mut regs = processor.regs;
    let mut sys = system(processor);
    let registers = drawing.regs;
    let hardware = processor.hardware;
    let mut device = device_of(registers, hardware);
    let pc = processor.pc;
    let psw = processor.psw;
    let mode = processor.mode;
    match acceptance(
        rom.len(),
        wram.len(),
        vram.len(),
        pak.len(),
        &device,
        &regs,
        &sys,
        pc,
        psw,
    ) {
        Err(n) => Ran {
            verdict: Err(n),
            count: 0,
            processor,
            drawing,
        },
        Ok(()) => {
            let mut memories = Memories {
                rom,
                wram,
                vram,
                pak,
                device: &mut device,
            };
            let f = run::run(&mut memories, &mut regs, &mut sys, pc, psw, mode, budget);
            let verdict = f.verdict;
            let mode = f.mode;
            let processor = joined(regs, sys, f.pc, f.psw, mode, &device);
            let registers = drawing_in(&device);
            Ran {
                verdict,
                count: f.count,
                processor,
                drawing: Drawing { regs: registers },
            }
        }
    }
}

// Both records at reset.
pub fn reset() -> Machine
    ensures { result ≡ reset_of }
{
    Machine {
        processor: Processor {
            regs: [0u32; 32],
            pc: 0xFFFFFFF0,
            eipc: 0,
            eipsw: 0,
            fepc: 0,
            fepsw: 0,
            ecr: 0xFFF0,
            psw: 0x8000,
            sr25: 0,
            sr29: 0,
            sr31: 0,
            mode: Mode::Running,
            hardware: TimerLines::reset(),
        },
        drawing: Drawing { regs: [0u16; 13] },
    }
}
