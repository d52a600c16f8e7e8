// A strip: the loop over worlds for an eye, the strip of both eyes stored into an image, and a frame of strips.
// These functions are `pub` for the crates above: internal, not calls of the library.
#![tactic(auto)]

ghost use Rattle.std.specs.Prelude.{◌≡◌, ℕ, ◌+◌, ◌-◌, ◌*◌, ◌<◌, ◌≤◌, length};
ghost use Rattle.bus.specs.Refusal.{vram_bytes};
ghost use Rattle.bus.specs.Registers.{spt_of, bkcol_of};
ghost use Rattle.drawing_pixel.specs.World.{world_of};
ghost use Rattle.drawing_pixel.specs.Pixel.{counter_of};
ghost use Rattle.drawing_pixel.specs.inner.Painting.{world_pixel_biased, worlds_pixel_biased};
ghost use Rattle.drawing_pixel.specs.Strip.{strip_of, frame_of};
ghost use Rattle.drawing_pixel.specs.inner.Buffer.{Strip};
ghost use Rattle.drawing_strip.specs.inner.Stored.{Stored};

use bus::DrawingRegisters;
use drawing_pixel::field::{half, wide};
use drawing_pixel::world::world_at;

// What world n shows an eye of a strip, painted over what is there; answers the object counter after it.
pub fn paint_world(
    vram: &[u8],
    registers: &DrawingRegisters,
    buffer: &mut [u16; 384],
    n: usize,
    counter: usize,
    eye: usize,
    strip: usize,
) -> usize
    requires buffer_len { length buffer.old ≡ 384 }
    requires vram_len { (length vram.now ≡ vram_bytes) × ((strip < 28) × ((n < 32) × (counter < 4))) }
    requires by_index { (k : ℕ) → k < 4 → spt_of registers.now k < 1024 }
    ensures value { (result ≡ counter_of (world_of vram.now n) counter) × (result < 4) }
    ensures strip { Strip
        (λ x r. world_pixel_biased vram.now registers.now (world_of vram.now n) counter
        eye x (8 * strip + r))
        buffer.old buffer.new }
{
    let flags = wide(half(vram, 251904 + 32 * n));
    if flags < 16384 {
        return counter;
    }
    if flags / 4096 % 4 == 3 {
        drawing_objects::group(vram, registers, buffer, counter, eye, strip);
        if counter == 0 {
            return 3;
        }
        return counter - 1;
    }
    let w = world_at(vram, n);
    drawing_background::world::strip(vram, registers, w, buffer, eye, strip);
    counter
}

// What worlds 31 to 0 show an eye of a strip, painted over what is there.
pub fn paint_worlds(
    vram: &[u8],
    registers: &DrawingRegisters,
    buffer: &mut [u16; 384],
    eye: usize,
    strip: usize,
)
    requires buffer_len { length buffer.old ≡ 384 }
    requires vram_len { (length vram.now ≡ vram_bytes) × (strip < 28) }
    requires by_index { (k : ℕ) → k < 4 → spt_of registers.now k < 1024 }
    ensures { Strip (λ x r. worlds_pixel_biased vram.now registers.now eye x (8 * strip + r) 32 3)
        buffer.old buffer.new }
{
    let mut n = 32;
    let mut counter = 3;
    while 0 < n {
        if wide(half(vram, 251904 + 32 * (n - 1))) / 64 % 2 == 1 {
            return;
        }
        counter = paint_world(vram, registers, buffer, n - 1, counter, eye, strip);
        n -= 1;
    }
}

// The columns of a strip stored into an image, which the part of VRAM begins with.
pub fn store_columns(image: &mut [u8], strip: usize, columns: &[u16; 384])
    requires { (24576 ≤ length image.old) × (strip < 28) }
    ensures { Stored 0 strip 384 columns.now image.old image.new }
{
    let mut x = 0;
    while x < 384 {
        let at = 64 * x + 2 * strip;
        let column = wide(columns[x]);
        image[at] = (column % 256) as u8;
        image[at + 1] = (column / 256 % 256) as u8;
        x += 1;
    }
}

// The columns of a strip stored into the image that begins at `base`.
pub fn store_strip(vram: &mut [u8], base: usize, strip: usize, columns: &[u16; 384])
    requires { (length vram.old ≡ vram_bytes) × ((base ≤ 98304) × (strip < 28)) }
    ensures { Stored base strip 384 columns.now vram.old vram.new }
{
    store_columns(&mut vram[base..], strip, columns);
}

// A strip of a frame: worked out for both eyes, then stored into the two images.
pub fn draw(vram: &mut [u8], registers: &DrawingRegisters, frame: usize, strip: usize)
    requires vram_len { (length vram.old ≡ vram_bytes) × ((frame < 2) × (strip < 28)) }
    requires by_index { ((k : ℕ) → k < 4 → spt_of registers.now k < 1024) × (bkcol_of registers.now < 4) }
    ensures { vram.new ≡ strip_of vram.old registers.now frame strip }
{
    let empty = registers[12] * 21845;
    let mut left = [empty; 384];
    paint_worlds(vram, registers, &mut left, 0, strip);
    let mut right = [empty; 384];
    paint_worlds(vram, registers, &mut right, 1, strip);
    store_strip(vram, 32768 * frame, strip, &left);
    store_strip(vram, 32768 * frame + 65536, strip, &right);
}

// A frame: strips 0 to 27.
pub fn draw_all(vram: &mut [u8], registers: &DrawingRegisters, frame: usize)
    requires vram_len { (length vram.old ≡ vram_bytes) × (frame < 2) }
    requires by_index { ((k : ℕ) → k < 4 → spt_of registers.now k < 1024) × (bkcol_of registers.now < 4) }
    ensures { vram.new ≡ frame_of vram.old registers.now frame }
{
    let mut strip = 0;
    while strip < 28 {
        draw(vram, registers, frame, strip);
        strip += 1;
    }
}
