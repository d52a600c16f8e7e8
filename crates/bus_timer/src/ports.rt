// The timer's registers: TLR, THR and TCR, bytes of region 2 by their offset there.
ghost use Rattle.std.specs.Prelude.{◌≡◌, ◌%◌, ◌<◌};
ghost use Rattle.bus_timer.specs.Ports.{control_bits_of, port_byte_of, control_written_of, line_after_control};
ghost use Rattle.bus_timer.specs.Ports.{reload_written_of, port_written_of, hardware_ok};

use crate::{TimerLines, bits};

const TLR: u32 = 0x18;

const THR: u32 = 0x1C;

const TCR: u32 = 0x20;

// The control bits that are stored.
#[tactic(auto, unfolding(crate::specs::Ports::control_bits_of))]
fn control_bits(c: u16) -> u16
    ensures { result ≡ control_bits_of c }
{
    c & 0x1B
}

// The control bits after the byte v was written to TCR.
#[tactic(auto, unfolding(crate::specs::Ports::control_written_of))]
fn control_written(control: u16, v: u16) -> u16
    ensures { result ≡ control_written_of control v }
{
    let own = v % 2 + v / 8 % 2 * 8 + v / 16 % 2 * 16;
    if v / 4 % 2 == 1 {
        own
    } else {
        own + control / 2 % 2 * 2
    }
}

// The lines after the byte v was written to TCR.
#[tactic(auto, unfolding(crate::specs::Ports::line_after_control))]
fn line_after_control(lines: u16, v: u16) -> u16
    ensures { result ≡ line_after_control lines v }
{
    if v / 4 % 2 == 0 && v / 8 % 2 == 1 {
        lines
    } else {
        bits::clear_second(lines)
    }
}

impl TimerLines {
    // What the byte at an offset reads.
    #[tactic(auto, using(crate::proofs::Mask::stored), unfolding(crate::specs::Ports::port_byte_of))]
    pub fn port(self, offset: u32) -> u32
        ensures { (result ≡ port_byte_of self offset) × (result < 256) }
    {
        let byte = match offset {
            TLR => self.count % 256,
            THR => self.count / 256,
            TCR => 0xE4 + control_bits(self.control),
            _ => 0,
        };
        u32::from(byte)
    }

    // The low 8 bits of a value written at an offset.
    #[tactic(auto, unfolding(crate::specs::Ports::port_written_of, crate::specs::Ports::tcr_written_of))]
    pub fn put_port(self, offset: u32, value: u32) -> TimerLines
        ensures { result ≡ port_written_of self offset (value % 256) }
    {
        let v = (value % 256) as u16;
        match offset {
            TLR => self.reloaded(self.reload / 256 * 256 + v),
            THR => self.reloaded(self.reload % 256 + 256 * v),
            TCR => TimerLines {
                lines: line_after_control(self.lines, v),
                control: control_written(self.control, v),
                ..self
            },
            _ => self,
        }
    }

    // With another reload, which the count becomes at once.
    fn reloaded(self, reload: u16) -> TimerLines
        ensures { result ≡ reload_written_of reload self }
    {
        TimerLines {
            count: reload,
            reload,
            ..self
        }
    }

    // Whether the lines and the timer are valid (refusal 5).
    #[tactic(auto, unfolding(crate::specs::Ports::hardware_ok))]
    pub fn is_ok(self) -> bool
        ensures { result ≡ hardware_ok self }
    {
        self.lines < 32 && control_bits(self.control) == self.control
    }
}
