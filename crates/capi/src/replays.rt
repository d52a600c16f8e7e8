// Replay of a recorded trace.
ghost use Rattle.std.specs.Prelude.{◌≡◌};
ghost use Rattle.bus.specs.Lent.{entering_with, leaving_with};
ghost use Rattle.capi_processor.specs.Replays.{replay_gives, replay_at};

use capi_bus::accesses::VbDrawing;
use capi_processor::record::VbProcessor;
use capi_processor::replays::VbReplayed;

#[unsafe(no_mangle)]
pub extern "C" fn vb_replay(
    rom: &[u8],
    wram: &mut [u8],
    vram: &mut [u8],
    pak: &mut [u8],
    processor: VbProcessor,
    drawing: VbDrawing,
    trace: &[u8],
) -> VbReplayed
    ensures { replay_gives result.refusal result.answer result.agreed result.word result.processor
        (leaving_with rom.now wram.new vram.new pak.new result.drawing.regs)
        ≡ replay_at processor (entering_with rom.now wram.old vram.old pak.old drawing.regs) trace.now }
{
    capi_processor::replays::replay(rom, wram, vram, pak, processor, drawing, trace)
}
