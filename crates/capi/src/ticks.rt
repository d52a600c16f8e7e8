// A tick of the timer.
ghost use Rattle.std.specs.Prelude.{◌≡◌};
ghost use Rattle.bus_tick.specs.Tick.{checked_tick_of};
ghost use Rattle.capi_bus.specs.TimerLines.{hardware_given};
ghost use Rattle.capi_bus.specs.Answers.{tick_out};

use capi_bus::hardware::VbHardware;
use capi_bus::ticks::VbTicked;

#[unsafe(no_mangle)]
pub extern "C" fn vb_tick(hardware: VbHardware) -> VbTicked
    ensures { result ≡ tick_out (checked_tick_of (hardware_given hardware)) }
{
    capi_bus::ticks::tick(hardware)
}
