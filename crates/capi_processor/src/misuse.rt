// A mode above 2, which no mode has: VB_MISUSE.
ghost use Rattle.std.specs.Prelude.{◌≡◌};
ghost use Rattle.bus.specs.Lent.{entering_with};
ghost use Rattle.capi_processor.specs.inner.Misuse.{misuse_at};

use crate::record::{VbProcessor, processor_in};
use bus::Drawing;
use capi_bus::accesses::VbDrawing;
use capi_bus::misuse::misuse_number;

// 0 for a mode up to 2; else VB_MISUSE, or the one of refusals 1 to 5 that comes before it.
pub fn misuse(
    rom: &[u8],
    wram: &[u8],
    vram: &[u8],
    pak: &[u8],
    processor: VbProcessor,
    drawing: VbDrawing,
) -> u32
    ensures { result ≡ misuse_at processor (entering_with rom.now wram.now vram.now pak.now drawing.regs) }
{
    let mode = processor.mode;
    if mode <= 2 {
        return 0;
    }
    let regs = drawing.regs;
    let p = processor_in(processor);
    misuse_number(processor::calls::verdict(rom, wram, vram, pak, p, Drawing { regs }))
}
