// A list of accesses in one call.
ghost use Rattle.std.specs.Prelude.{◌≡◌};
ghost use Rattle.bus_list.specs.List.{made_of};
ghost use Rattle.capi_bus.specs.TimerLines.{hardware_given};
ghost use Rattle.capi_bus.specs.Lists.{list_number_at, list_left_at};
ghost use Rattle.bus.specs.Lent.{entering_with, leaving_with};
ghost use Rattle.bus.specs.TimerLines.{device_of};

use capi_bus::accesses::{VbDrawing, VbStored};
use capi_bus::hardware::VbHardware;

#[unsafe(no_mangle)]
pub extern "C" fn vb_access_list(
    rom: &[u8],
    wram: &mut [u8],
    vram: &mut [u8],
    pak: &mut [u8],
    drawing: VbDrawing,
    hardware: VbHardware,
    list: &mut [u8],
) -> VbStored
    ensures refusal { result.refusal ≡ list_number_at (entering_with rom.now wram.old vram.old pak.old (device_of drawing.regs (hardware_given hardware)))
        list.old }
    ensures made { made_of (leaving_with rom.now wram.new vram.new pak.new (device_of result.drawing.regs (hardware_given result.hardware)))
        list.new
        ≡ list_left_at (entering_with rom.now wram.old vram.old pak.old (device_of drawing.regs (hardware_given hardware)))
        list.old }
{
    capi_bus::lists::access_list(rom, wram, vram, pak, drawing, hardware, list)
}
