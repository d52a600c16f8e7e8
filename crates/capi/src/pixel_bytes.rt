// The bytes that a pixel answers to.
ghost use Rattle.std.specs.Prelude.{◌≡◌};
ghost use Rattle.drawing_bytes.specs.Calls.{listed_of, output_of};
ghost use Rattle.capi_drawing.specs.PixelBytes.{listed_at};

use capi_bus::accesses::VbDrawing;
use capi_drawing::pixel_bytes::VbListed;

#[unsafe(no_mangle)]
pub extern "C" fn vb_pixel_bytes(
    vram: &[u8],
    drawing: VbDrawing,
    eye: u32,
    x: u32,
    y: u32,
    room: &mut [u32],
) -> VbListed
    ensures answer { result ≡ listed_at (listed_of vram.now drawing.regs eye x y) }
    ensures room { room.new ≡ output_of vram.now drawing.regs eye x y room.old }
{
    capi_drawing::pixel_bytes::pixel_bytes(vram, drawing, eye, x, y, room)
}
