// Saved states.
ghost use Rattle.std.specs.Prelude.{◌≡◌};
ghost use Rattle.bus.specs.Lent.{entering_with, leaving_with};
ghost use Rattle.refusal.specs.Number.{verdict_number};
ghost use Rattle.saved_layout.specs.declared.Form.TheVariants.{One, Two};
ghost use Rattle.saved_move.specs.Move.{move_verdict_of, moved_of};
ghost use Rattle.saved_salvage.specs.Salvage.{salvage_of, salvaged_output_of};
ghost use Rattle.capi_saved.specs.States.{write_number_at, written_at, restored_gives, read_at, salvaged_at};

use capi_bus::accesses::VbDrawing;
use capi_processor::record::VbProcessor;
use capi_saved::states::{VbRestored, VbSalvaged};

#[unsafe(no_mangle)]
pub extern "C" fn vb_write_state(
    rom: &[u8],
    wram: &[u8],
    vram: &[u8],
    pak: &[u8],
    processor: VbProcessor,
    drawing: VbDrawing,
    room: &mut [u8],
) -> u32
    ensures refusal { result ≡ write_number_at One processor (entering_with rom.now wram.now vram.now pak.now drawing.regs) room.old }
    ensures room { room.new ≡ written_at One processor (entering_with rom.now wram.now vram.now pak.now drawing.regs) room.old }
{
    capi_saved::states::write_state(rom, wram, vram, pak, processor, drawing, room)
}

#[unsafe(no_mangle)]
pub extern "C" fn vb_write_state_2(
    rom: &[u8],
    wram: &[u8],
    vram: &[u8],
    pak: &[u8],
    processor: VbProcessor,
    drawing: VbDrawing,
    room: &mut [u8],
) -> u32
    ensures refusal { result ≡ write_number_at Two processor (entering_with rom.now wram.now vram.now pak.now drawing.regs) room.old }
    ensures room { room.new ≡ written_at Two processor (entering_with rom.now wram.now vram.now pak.now drawing.regs) room.old }
{
    capi_saved::states::write_state_2(rom, wram, vram, pak, processor, drawing, room)
}

#[unsafe(no_mangle)]
pub extern "C" fn vb_read_state(
    rom: &[u8],
    wram: &mut [u8],
    vram: &mut [u8],
    pak: &mut [u8],
    processor: VbProcessor,
    drawing: VbDrawing,
    file: &[u8],
) -> VbRestored
    ensures { restored_gives result.refusal result.processor (leaving_with rom.now wram.new vram.new pak.new result.drawing.regs)
        ≡ read_at processor (entering_with rom.now wram.old vram.old pak.old drawing.regs) file.now }
{
    capi_saved::states::read_state(rom, wram, vram, pak, processor, drawing, file)
}

#[unsafe(no_mangle)]
pub extern "C" fn vb_move_state(file: &[u8], room: &mut [u8]) -> u32
    ensures refusal { result ≡ verdict_number (move_verdict_of file.now room.old) }
    ensures room { room.new ≡ moved_of file.now room.old }
{
    capi_saved::states::move_state(file, room)
}

#[unsafe(no_mangle)]
pub extern "C" fn vb_salvage_state(file: &[u8], room: &mut [u8]) -> VbSalvaged
    ensures reported { result ≡ salvaged_at (salvage_of file.now room.old) }
    ensures room { room.new ≡ salvaged_output_of file.now room.old }
{
    capi_saved::states::salvage_state(file, room)
}
