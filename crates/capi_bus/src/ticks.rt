// A tick of the timer.
ghost use Rattle.std.specs.Prelude.{◌≡◌};
ghost use Rattle.bus_tick.specs.Tick.{checked_tick_of};
ghost use Rattle.capi_bus.specs.TimerLines.{hardware_given};
ghost use Rattle.capi_bus.specs.Answers.{tick_out};

use crate::hardware::VbHardware;
use bus_timer::TimerLines;

#[repr(C)]
#[derive(Clone, Copy)]
pub struct VbTicked {
    pub refusal: u32,
    pub hardware: VbHardware,
}

pub fn tick(hardware: VbHardware) -> VbTicked
    ensures { result ≡ tick_out (checked_tick_of (hardware_given hardware)) }
{
    match bus_tick::tick(TimerLines::from(hardware)) {
        Ok(after) => VbTicked {
            refusal: 0,
            hardware: VbHardware::from(after),
        },
        Err(refusal) => VbTicked {
            refusal: u32::from(refusal),
            hardware,
        },
    }
}
