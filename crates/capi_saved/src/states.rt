// Saved states.
ghost use Rattle.std.specs.Prelude.{◌≡◌};
ghost use Rattle.bus.specs.Lent.{entering_with, leaving_with};
ghost use Rattle.refusal.specs.Number.{verdict_number};
ghost use Rattle.saved_layout.specs.declared.Form.TheVariants.{One, Two};
ghost use Rattle.saved_move.specs.Move.{move_verdict_of, moved_of};
ghost use Rattle.saved_salvage.specs.Salvage.{salvage_of, salvaged_output_of};
ghost use Rattle.capi_saved.specs.States.{write_number_at, written_at, restored_gives, read_at, salvaged_at};

use bus::Drawing;
use capi_bus::accesses::VbDrawing;
use capi_processor::misuse::misuse;
use capi_processor::record::{VbProcessor, processor_in, processor_out};
use saved_salvage::Salvaged;

#[repr(C)]
#[derive(Clone, Copy)]
pub struct VbRestored {
    pub refusal: u32,
    pub processor: VbProcessor,
    pub drawing: VbDrawing,
}

#[repr(C)]
#[derive(Clone, Copy)]
pub struct VbSalvaged {
    pub refusal: u32,
    pub replaced: u32,
    pub kinds: [u32; 6],
    pub contents_differ: u32,
}

pub fn write_state(
    rom: &[u8],
    wram: &[u8],
    vram: &[u8],
    pak: &[u8],
    processor: VbProcessor,
    drawing: VbDrawing,
    output: &mut [u8],
) -> u32
    ensures refusal { result ≡ write_number_at One processor (entering_with rom.now wram.now vram.now pak.now drawing.regs) output.old }
    ensures output { output.new
        ≡ written_at One processor (entering_with rom.now wram.now vram.now pak.now drawing.regs) output.old }
{
    let misused = misuse(rom, wram, vram, pak, processor, drawing);
    if misused != 0 {
        return misused;
    }
    let regs = drawing.regs;
    let p = processor_in(processor);
    refusal::verdict_number(saved::write(rom, wram, vram, pak, p, Drawing { regs }, output))
}

pub fn write_state_2(
    rom: &[u8],
    wram: &[u8],
    vram: &[u8],
    pak: &[u8],
    processor: VbProcessor,
    drawing: VbDrawing,
    output: &mut [u8],
) -> u32
    ensures refusal { result ≡ write_number_at Two processor (entering_with rom.now wram.now vram.now pak.now drawing.regs) output.old }
    ensures output { output.new
        ≡ written_at Two processor (entering_with rom.now wram.now vram.now pak.now drawing.regs) output.old }
{
    let misused = misuse(rom, wram, vram, pak, processor, drawing);
    if misused != 0 {
        return misused;
    }
    let regs = drawing.regs;
    let p = processor_in(processor);
    refusal::verdict_number(saved::write_2(rom, wram, vram, pak, p, Drawing { regs }, output))
}

pub fn read_state(
    rom: &[u8],
    wram: &mut [u8],
    vram: &mut [u8],
    pak: &mut [u8],
    processor: VbProcessor,
    drawing: VbDrawing,
    file: &[u8],
) -> VbRestored
    ensures { restored_gives result.refusal result.processor (leaving_with rom.now wram.new vram.new pak.new result.drawing.regs)
        ≡ read_at processor (entering_with rom.now wram.old vram.old pak.old drawing.regs) file.now }
{
    let misused = misuse(rom, wram, vram, pak, processor, drawing);
    if misused != 0 {
        return VbRestored {
            refusal: misused,
            processor,
            drawing,
        };
    }
    let regs = drawing.regs;
    let p = processor_in(processor);
    let s = saved::read(rom, wram, vram, pak, p, Drawing { regs }, file);
    let verdict = s.verdict;
    let after = s.processor;
    let device = s.drawing.regs;
    VbRestored {
        refusal: refusal::verdict_number(verdict),
        processor: processor_out(after),
        drawing: VbDrawing { regs: device },
    }
}

pub fn move_state(file: &[u8], output: &mut [u8]) -> u32
    ensures refusal { result ≡ verdict_number (move_verdict_of file.now output.old) }
    ensures output { output.new ≡ moved_of file.now output.old }
{
    refusal::verdict_number(saved_move::move_state(file, output))
}

// What a salvage reported, as the boundary has it.
fn salvaged(report: Salvaged) -> VbSalvaged
    ensures { result ≡ salvaged_at report }
{
    let verdict = report.verdict;
    let list = report.list;
    let kinds = list.kinds;
    let refusal = refusal::verdict_number(verdict);
    if report.differ {
        return VbSalvaged {
            refusal,
            replaced: list.count,
            kinds,
            contents_differ: 1,
        };
    }
    VbSalvaged {
        refusal,
        replaced: list.count,
        kinds,
        contents_differ: 0,
    }
}

pub fn salvage_state(file: &[u8], output: &mut [u8]) -> VbSalvaged
    ensures reported { result ≡ salvaged_at (salvage_of file.now output.old) }
    ensures output { output.new ≡ salvaged_output_of file.now output.old }
{
    salvaged(saved_salvage::salvage_state(file, output))
}
