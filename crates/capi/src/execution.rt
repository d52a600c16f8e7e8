// A step, a run and a reset.
ghost use Rattle.std.specs.Prelude.{◌≡◌};
ghost use Rattle.bus.specs.Lent.{entering_with, leaving_with};
ghost use Rattle.processor.specs.Calls.{reset_of};
ghost use Rattle.capi_processor.specs.Record.{processor_out};
ghost use Rattle.capi_processor.specs.Execution.{step_gives, step_at, run_gives};
ghost use Rattle.capi_processor.specs.Execution.{run_at};

use capi_bus::accesses::VbDrawing;
use capi_processor::execution::{VbMachine, VbRan, VbStepped};
use capi_processor::record::VbProcessor;

#[unsafe(no_mangle)]
pub extern "C" fn vb_step(
    rom: &[u8],
    wram: &mut [u8],
    vram: &mut [u8],
    pak: &mut [u8],
    processor: VbProcessor,
    drawing: VbDrawing,
) -> VbStepped
    ensures { step_gives result.refusal result.answer result.code result.undefined result.processor
        (leaving_with rom.now wram.new vram.new pak.new result.drawing.regs)
        ≡ step_at processor (entering_with rom.now wram.old vram.old pak.old drawing.regs) }
{
    capi_processor::execution::step(rom, wram, vram, pak, processor, drawing)
}

#[unsafe(no_mangle)]
pub extern "C" fn vb_run(
    rom: &[u8],
    wram: &mut [u8],
    vram: &mut [u8],
    pak: &mut [u8],
    processor: VbProcessor,
    drawing: VbDrawing,
    budget: u64,
) -> VbRan
    ensures { run_gives result.refusal result.count result.processor (leaving_with rom.now wram.new vram.new pak.new result.drawing.regs)
        ≡ run_at budget processor (entering_with rom.now wram.old vram.old pak.old drawing.regs) }
{
    capi_processor::execution::run(rom, wram, vram, pak, processor, drawing, budget)
}

#[unsafe(no_mangle)]
pub extern "C" fn vb_reset() -> VbMachine
    ensures { (result.processor ≡ processor_out reset_of.processor) × (result.drawing.regs ≡ reset_of.drawing.regs) }
{
    capi_processor::execution::reset()
}
