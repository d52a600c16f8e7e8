// Replay of a recorded trace.
ghost use Rattle.std.specs.Prelude.{◌≡◌};
ghost use Rattle.bus.specs.Lent.{entering_with, leaving_with};
ghost use Rattle.capi_processor.specs.Replays.{end_refusal, end_number, end_word, replay_gives, replay_at};

use crate::misuse::misuse;
use crate::record::{VbProcessor, processor_in, processor_out};
use bus::Drawing;
use capi_bus::accesses::VbDrawing;
use processor_replay::End;

#[repr(C)]
#[derive(Clone, Copy)]
pub struct VbReplayed {
    pub refusal: u32,
    pub answer: u32,
    pub agreed: u64,
    pub word: u32,
    pub processor: VbProcessor,
    pub drawing: VbDrawing,
}

fn end_refusal(end: End) -> u32
    ensures { result ≡ end_refusal end }
{
    match end {
        End::Refused(n) => u32::from(n),
        End::Agreed => 0,
        End::Differed(_) => 0,
        End::WasHalted => 0,
        End::WasFatal => 0,
        End::TurnedFatal => 0,
    }
}

fn end_number(end: End) -> u32
    ensures { result ≡ end_number end }
{
    match end {
        End::Refused(_) => 0,
        End::Agreed => 1,
        End::Differed(_) => 2,
        End::WasHalted => 3,
        End::WasFatal => 4,
        End::TurnedFatal => 5,
    }
}

fn end_word(end: End) -> u32
    ensures { result ≡ end_word end }
{
    match end {
        End::Refused(_) => 0,
        End::Agreed => 0,
        End::Differed(word) => word,
        End::WasHalted => 0,
        End::WasFatal => 0,
        End::TurnedFatal => 0,
    }
}

pub fn replay(
    rom: &[u8],
    wram: &mut [u8],
    vram: &mut [u8],
    pak: &mut [u8],
    processor: VbProcessor,
    drawing: VbDrawing,
    trace: &[u8],
) -> VbReplayed
    ensures { replay_gives result.refusal result.answer result.agreed result.word result.processor
        (leaving_with rom.now wram.new vram.new pak.new result.drawing.regs)
        ≡ replay_at processor (entering_with rom.now wram.old vram.old pak.old drawing.regs) trace.now }
{
    let misused = misuse(rom, wram, vram, pak, processor, drawing);
    if misused != 0 {
        return VbReplayed {
            refusal: misused,
            answer: 0,
            agreed: 0,
            word: 0,
            processor,
            drawing,
        };
    }
    let regs = drawing.regs;
    let p = processor_in(processor);
    let s = processor_replay::calls::replay(rom, wram, vram, pak, p, Drawing { regs }, trace);
    let end = s.end;
    let after = s.processor;
    let device = s.drawing.regs;
    VbReplayed {
        refusal: end_refusal(end),
        answer: end_number(end),
        agreed: s.agreed,
        word: end_word(end),
        processor: processor_out(after),
        drawing: VbDrawing { regs: device },
    }
}
