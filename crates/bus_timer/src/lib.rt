// The request lines and the timer: four halfwords by value, what a tick does to them, and the timer's three registers
// among the addresses of region 2. The functions here are for the crates above; the call that tests its record and
// refuses is that of the crate bus_tick.
#![tactic(auto)]

mod bits;
mod ports;
mod timer;

ghost use Rattle.std.specs.Prelude.{◌≡◌};
ghost use Rattle.bus_timer.specs.Record.{reset_hardware};

// The request lines (bit n is the line of level n), the timer's count, what it is reloaded with, and its control bits
// at their places in TCR.
#[derive(Clone, Copy)]
pub struct TimerLines {
    pub lines: u16,
    pub count: u16,
    pub reload: u16,
    pub control: u16,
}

impl TimerLines {
    // Lines and timer at reset.
    pub fn reset() -> TimerLines
        ensures { result ≡ reset_hardware }
    {
        TimerLines {
            lines: 0,
            count: 0,
            reload: 0,
            control: 0,
        }
    }
}
