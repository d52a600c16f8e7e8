// A list of accesses in one call.
ghost use Rattle.std.specs.Prelude.{◌≡◌};
ghost use Rattle.bus_list.specs.List.{made_of};
ghost use Rattle.capi_bus.specs.TimerLines.{hardware_given};
ghost use Rattle.capi_bus.specs.Lists.{list_number_at, list_left_at};
ghost use Rattle.bus.specs.Lent.{entering_with, leaving_with};
ghost use Rattle.bus.specs.TimerLines.{device_of};

use crate::accesses::{VbDrawing, VbStored, stored};
use crate::hardware::VbHardware;
use crate::misuse::misuse_number;
use bus::{Drawing, refusals};
use bus_timer::TimerLines;

#[tactic(auto, unfolding(crate::specs::Lists::list_number_at, crate::specs::Lists::list_left_at))]
pub fn access_list(
    rom: &[u8],
    wram: &mut [u8],
    vram: &mut [u8],
    pak: &mut [u8],
    drawing: VbDrawing,
    hardware: VbHardware,
    list: &mut [u8],
) -> VbStored
    ensures refusal { result.refusal ≡ list_number_at (entering_with rom.now wram.old vram.old pak.old (device_of drawing.regs (hardware_given hardware)))
        list.old }
    ensures made { made_of (leaving_with rom.now wram.new vram.new pak.new (device_of result.drawing.regs (hardware_given result.hardware)))
        list.new
        ≡ list_left_at (entering_with rom.now wram.old vram.old pak.old (device_of drawing.regs (hardware_given hardware)))
        list.old }
{
    let regs = Drawing::from(drawing);
    let timer = TimerLines::from(hardware);
    if list.len() % 20 != 0 {
        let v = refusals::call_verdict(
            rom.len(),
            wram.len(),
            vram.len(),
            pak.len(),
            &regs.regs,
            timer,
        );
        return VbStored {
            refusal: misuse_number(v),
            drawing,
            hardware,
        };
    }
    let answer = bus_list::access_list(rom, wram, vram, pak, regs, timer, list);
    stored(drawing, hardware, answer)
}
