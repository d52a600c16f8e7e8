// The bytes a pixel answers to: how many there are, and their addresses in the caller's output buffer.
#![tactic(auto)]

mod background;
mod objects;
mod output;

ghost use Rattle.std.specs.Prelude.{◌≡◌, ℕ, ◌<◌, length};
ghost use Rattle.bus.specs.Refusal.{vram_bytes};
ghost use Rattle.bus.specs.Registers.{spt_of};
ghost use Rattle.drawing_laws.specs.inner.SourceBytes.{pixel_bytes_biased};
ghost use Rattle.drawing_bytes.specs.inner.Output.{Lists};
ghost use Rattle.drawing_bytes.specs.Calls.{listed_of, output_of};

use crate::objects::Pixel;
use bus::{Drawing, DrawingRegisters};
use refusal::Refusal;

// The list of a pixel of an image, the worlds' bytes first.
fn list(
    vram: &[u8],
    registers: &DrawingRegisters,
    output: &mut [u32],
    eye: usize,
    x: usize,
    y: usize,
) -> usize
    requires vram_len { (length vram.now ≡ vram_bytes) × ((x < 384) × (y < 224)) }
    requires by_index { (g : ℕ) → g < 4 → spt_of registers.now g < 1024 }
    ensures { Lists output.old output.new 0 (pixel_bytes_biased vram.now registers.now eye x y) result }
{
    let n = background::list_worlds(vram, output, eye, x, y);
    let worlds = objects::object_worlds(vram);
    let pixel = Pixel { eye, x, y };
    objects::list_objects(vram, registers, output, n, worlds, pixel)
}

// The bytes that pixel (x, y) of an eye's image answers to: how many there are, and their addresses in VRAM in the
// first words of the output buffer (paper 02: "room"), as far as it reaches. `None` is for a pixel that no image has,
// for which the specification has no number.
#[tactic(auto, unfolding(bus::specs::Refusal::vram_ok, crate::specs::Calls::in_image_of, crate::specs::Calls::bytes_verdict_of, crate::specs::Calls::listed_of, crate::specs::Calls::output_of))]
pub fn pixel_bytes(
    vram: &[u8],
    drawing: Drawing,
    eye: u32,
    x: u32,
    y: u32,
    output: &mut [u32],
) -> Result<Option<usize>, Refusal>
    ensures answer { result ≡ listed_of vram.now drawing.regs eye x y }
    ensures output { output.new ≡ output_of vram.now drawing.regs eye x y output.old }
{
    let regs = drawing.regs;
    drawing::refusals::state(vram, &regs)?;
    if eye > 1 || x > 383 || y > 223 {
        return Ok(None);
    }
    Ok(Some(list(vram, &regs, output, eye as usize, x as usize, y as usize)))
}
