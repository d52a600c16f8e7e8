// Objects: paints what an object, and a group of objects, shows of a strip over what is there.
// These functions are `pub` for the crates above: internal, not calls of the library.
#![tactic(auto)]

ghost use Rattle.std.specs.Prelude.{◌≡◌, true, ℕ, ◌+◌, ◌-◌, ◌*◌, ◌<◌, ◌≤◌, length};
ghost use Rattle.bus.specs.Refusal.{vram_bytes};
ghost use Rattle.bus.specs.Registers.{spt_of};
ghost use Rattle.drawing_pixel.specs.Object.{object_of, object_shown_of, group_count_of};
ghost use Rattle.drawing_pixel.specs.inner.BiasedObject.{object_row_biased, object_left_biased, object_pixel_biased};
ghost use Rattle.drawing_pixel.specs.inner.BiasedObject.{group_pixel_biased};
ghost use Rattle.drawing_pixel.specs.inner.Buffer.{Span, Strip};

use bus::DrawingRegisters;
use drawing_pixel::character::row_address;
use drawing_pixel::field::{clipped, flag, half, wide};
use drawing_pixel::object::{CELL, JP, JY, Object, object, object_left};
use drawing_pixel::paint::{Run, View, span};

// Whether an object is shown to an eye; its world's own flags hide nothing.
pub fn shown(o: &Object, eye: usize) -> bool
    ensures { result ≡ object_shown_of o.now eye }
{
    flag(eye, o[JP])
}

// The object's row at image row y.
pub fn object_row(o: &Object, y: usize) -> usize
    requires { y < 256 }
    ensures { result ≡ object_row_biased o.now y }
{
    (y + 256 - wide(o[JY]) % 256) % 256
}

// A run of a strip whose columns are in the object's square; the row may be outside of it.
pub fn object_span(
    vram: &[u8],
    registers: &DrawingRegisters,
    o: &Object,
    buffer: &mut [u16; 384],
    run: Run,
    view: View,
)
    requires buffer_len { length buffer.old ≡ 384 }
    requires vram_len { (length vram.now ≡ vram_bytes)
        × ((run.from ≤ run.to) × ((run.to ≤ 384) × ((run.row < 8) × (view.strip < 28)))) }
    requires eye_value { (object_shown_of o.now view.eye ≡ true)
        × ((object_left_biased o.now view.eye ≤ run.from + 1024)
        × (run.to + 1024 ≤ object_left_biased o.now view.eye + 8)) }
    ensures { Span run.row run.from run.to
        (λ x. object_pixel_biased vram.now registers.now o.now view.eye
        x (8 * view.strip + run.row))
        buffer.old buffer.new }
{
    let row = object_row(o, 8 * view.strip + run.row);
    if 8 <= row {
        return;
    }
    let cell = wide(o[CELL]);
    let pixels = wide(half(vram, row_address(cell, row)));
    let palette = wide(registers[8 + cell / 16384]);
    let column = run.from + 1024 - object_left(o, view.eye);
    span(buffer, run, cell, pixels, palette, column);
}

// What an object shows an eye of a strip, painted over what is there.
pub fn object_strip(
    vram: &[u8],
    registers: &DrawingRegisters,
    o: &Object,
    buffer: &mut [u16; 384],
    eye: usize,
    strip: usize,
)
    requires buffer_len { length buffer.old ≡ 384 }
    requires vram_len { (length vram.now ≡ vram_bytes) × (strip < 28) }
    ensures { Strip
        (λ x r. object_pixel_biased vram.now registers.now o.now eye
        x (8 * strip + r))
        buffer.old buffer.new }
{
    if !shown(o, eye) {
        return;
    }
    let left = object_left(o, eye);
    let from = clipped(left);
    let to = clipped(left + 8);
    if to <= from {
        return;
    }
    let mut r = 0;
    while r < 8 {
        let run = Run { row: r, from, to };
        object_span(vram, registers, o, buffer, run, View { eye, strip });
        r += 1;
    }
}

// Object k of an object world on a strip. Most objects have no row there; JY alone decides that, so it is tested first.
pub fn paint_object(
    vram: &[u8],
    registers: &DrawingRegisters,
    buffer: &mut [u16; 384],
    k: usize,
    eye: usize,
    strip: usize,
)
    requires buffer_len { length buffer.old ≡ 384 }
    requires vram_len { (length vram.now ≡ vram_bytes) × ((strip < 28) × (k < 1024)) }
    ensures { Strip
        (λ x r. object_pixel_biased vram.now registers.now
        (object_of vram.now k) eye x (8 * strip + r))
        buffer.old buffer.new }
{
    let jy = wide(half(vram, 253952 + 8 * k + 4)) % 256;
    if 15 <= (8 * strip + 263 - jy) % 256 {
        return;
    }
    let o = object(vram, k);
    object_strip(vram, registers, &o, buffer, eye, strip);
}

// How many objects group n has.
pub fn group_count(registers: &DrawingRegisters, n: usize) -> usize
    requires { (n < 4) × ((k : ℕ) → k < 4 → spt_of registers.now k < 1024) }
    ensures { (result ≡ group_count_of registers.now n) × (result ≤ 1024) }
{
    if n == 0 {
        return wide(registers[0]) + 1;
    }
    (wide(registers[n]) + 1023 - wide(registers[n - 1])) % 1024 + 1
}

// What group n of objects shows an eye of a strip, painted over what is there.
pub fn group(
    vram: &[u8],
    registers: &DrawingRegisters,
    buffer: &mut [u16; 384],
    n: usize,
    eye: usize,
    strip: usize,
)
    requires buffer_len { length buffer.old ≡ 384 }
    requires vram_len { (length vram.now ≡ vram_bytes) × (strip < 28) }
    requires n_bound { (n < 4) × ((k : ℕ) → k < 4 → spt_of registers.now k < 1024) }
    ensures { Strip
        (λ x r. group_pixel_biased vram.now registers.now n eye x (8 * strip + r))
        buffer.old buffer.new }
{
    let mut left = group_count(registers, n);
    let mut k = wide(registers[n]);
    while 0 < left {
        paint_object(vram, registers, buffer, k, eye, strip);
        k = (k + 1023) % 1024;
        left -= 1;
    }
}
