// The display unit.
ghost use Rattle.std.specs.Prelude.{◌≡◌};
ghost use Rattle.refusal.specs.Number.{verdict_number};
ghost use Rattle.drawing_display.specs.Brightness.{view_of, durations_of};
ghost use Rattle.drawing_display.specs.Calls.{display_verdict_of, display_of, load_table_verdict_of, load_table_of};

use drawing_display::{Durations, View};

pub fn display(
    vram: &[u8],
    frame: u32,
    eye: u32,
    start: u32,
    brta: u8,
    brtb: u8,
    brtc: u8,
    room: &mut [u8],
) -> u32
    ensures refusal { result ≡ verdict_number (display_verdict_of vram.now (view_of frame eye start) room.old) }
    ensures room { room.new ≡ display_of vram.now (view_of frame eye start)
        (durations_of brta brtb brtc) room.old }
{
    let view = View { frame, eye, start };
    let durations = Durations { brta, brtb, brtc };
    refusal::verdict_number(drawing_display::display(vram, view, durations, room))
}

pub fn load_column_table(vram: &mut [u8]) -> u32
    ensures refusal { result ≡ verdict_number (load_table_verdict_of vram.old) }
    ensures memory { vram.new ≡ load_table_of vram.old }
{
    refusal::verdict_number(drawing_display::load_column_table(vram))
}
