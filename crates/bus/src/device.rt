// The device registers, put together of the records of the public calls and taken apart.
ghost use Rattle.std.specs.Prelude.{◌≡◌};
ghost use Rattle.bus.specs.Registers.{drawing_in};
ghost use Rattle.bus.specs.TimerLines.{hardware_in, with_hardware, device_of};

use crate::{CONTROL_PLACE, COUNT_PLACE, Device, DrawingRegisters, LINES_PLACE, RELOAD_PLACE};
use bus_timer::TimerLines;

// The device registers of the drawing registers, the request lines and the timer.
#[tactic(auto, unfolding(crate::specs::TimerLines::device_of))]
pub fn device_of(drawing: DrawingRegisters, hardware: TimerLines) -> Device
    ensures { result ≡ device_of drawing hardware }
{
    [
        drawing[0],
        drawing[1],
        drawing[2],
        drawing[3],
        drawing[4],
        drawing[5],
        drawing[6],
        drawing[7],
        drawing[8],
        drawing[9],
        drawing[10],
        drawing[11],
        drawing[12],
        hardware.lines,
        hardware.count,
        hardware.reload,
        hardware.control,
    ]
}

// The drawing registers among them.
#[tactic(auto, unfolding(crate::specs::Registers::drawing_in))]
pub fn drawing_in(device: &Device) -> DrawingRegisters
    ensures { result ≡ drawing_in device.now }
{
    [
        device[0], device[1], device[2], device[3], device[4], device[5], device[6], device[7],
        device[8], device[9], device[10], device[11], device[12],
    ]
}

// The request lines and the timer among them.
#[tactic(auto, unfolding(crate::specs::TimerLines::hardware_in))]
pub fn hardware_in(device: &Device) -> TimerLines
    ensures { result ≡ hardware_in device.now }
{
    TimerLines {
        lines: device[LINES_PLACE],
        count: device[COUNT_PLACE],
        reload: device[RELOAD_PLACE],
        control: device[CONTROL_PLACE],
    }
}

// Other request lines and another timer put among them.
#[tactic(auto, unfolding(crate::specs::TimerLines::with_hardware))]
pub fn put_hardware(device: &mut Device, hardware: TimerLines)
    ensures { device.new ≡ with_hardware device.old hardware }
{
    device[LINES_PLACE] = hardware.lines;
    device[COUNT_PLACE] = hardware.count;
    device[RELOAD_PLACE] = hardware.reload;
    device[CONTROL_PLACE] = hardware.control;
}
