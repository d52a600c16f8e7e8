// The bytes that a pixel answers to.
ghost use Rattle.std.specs.Prelude.{◌≡◌};
ghost use Rattle.drawing_bytes.specs.Calls.{listed_of, output_of};
ghost use Rattle.capi_drawing.specs.PixelBytes.{listed_at};

use bus::Drawing;
use capi_bus::accesses::VbDrawing;

// How many addresses the list has.
#[repr(C)]
#[derive(Clone, Copy)]
pub struct VbListed {
    pub refusal: u32,
    pub count: u64,
}

pub fn pixel_bytes(
    vram: &[u8],
    drawing: VbDrawing,
    eye: u32,
    x: u32,
    y: u32,
    room: &mut [u32],
) -> VbListed
    ensures answer { result ≡ listed_at (listed_of vram.now drawing.regs eye x y) }
    ensures room { room.new ≡ output_of vram.now drawing.regs eye x y room.old }
{
    let regs = drawing.regs;
    match drawing_bytes::pixel_bytes(vram, Drawing { regs }, eye, x, y, room) {
        Ok(Some(count)) => VbListed {
            refusal: 0,
            count: count as u64,
        },
        // VB_MISUSE.
        Ok(None) => VbListed {
            refusal: 255,
            count: 0,
        },
        Err(refusal) => VbListed {
            refusal: u32::from(refusal),
            count: 0,
        },
    }
}
