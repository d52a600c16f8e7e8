// The request lines and the timer at the boundary.
ghost use Rattle.std.specs.Prelude.{◌≡◌};
ghost use Rattle.capi_bus.specs.TimerLines.{hardware_given, hardware_out};

use bus_timer::TimerLines;

// Bit n of `lines` is the line of level n; the control bits stand at their places in TCR.
#[repr(C)]
#[derive(Clone, Copy)]
pub struct VbHardware {
    pub lines: u16,
    pub count: u16,
    pub reload: u16,
    pub control: u16,
}

impl From<VbHardware> for TimerLines {
    ghost from_gives = { λ h lines. lines ≡ hardware_given h };

    fn from(h: VbHardware) -> TimerLines {
        TimerLines {
            lines: h.lines,
            count: h.count,
            reload: h.reload,
            control: h.control,
        }
    }
}

impl From<TimerLines> for VbHardware {
    ghost from_gives = { λ lines h. h ≡ hardware_out lines };

    fn from(h: TimerLines) -> VbHardware {
        VbHardware {
            lines: h.lines,
            count: h.count,
            reload: h.reload,
            control: h.control,
        }
    }
}
