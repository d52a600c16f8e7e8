// Painting a row of the strip: a pixel, eight columns at once, and a part of a character row.
ghost use Rattle.std.specs.Prelude.{◌≡◌, ℕ, ◌+◌, ◌-◌, ◌*◌, ◌^◌, ◌<◌, ◌≤◌, length, eqb, Bool};
ghost use Rattle.word.specs.Choose.{pick};
ghost use Rattle.word.specs.Bit.{is_set};
ghost use Rattle.drawing_pixel.specs.Character.{two_bits_of, flipped_of, pixel_value_of, shade_of};
ghost use Rattle.drawing_pixel.specs.inner.Places.{PlaceUnit};
ghost use Rattle.drawing_pixel.specs.inner.Buffer.{repainted_of, Span};

use crate::character::{shade, value};
use crate::field::choice;

// Columns `from` to `to` - 1 of a row of the strip.
#[derive(Clone, Copy)]
pub struct Run {
    pub row: usize,
    pub from: usize,
    pub to: usize,
}

// What is drawn at a time: a strip, for an eye.
#[derive(Clone, Copy)]
pub struct View {
    pub eye: usize,
    pub strip: usize,
}

// Two bits at their place in row r of a column.
pub fn placed(v: u16, r: usize) -> u16
    requires { (v < 4) × (r < 8) }
    ensures { result ≡ v * 2 ^ (2 * r) }
{
    v << (2 * r)
}

// What is left of a column where row r is painted over; all of it where the paint is blank.
pub fn kept(h: u16, r: usize, blank: bool) -> u16
    requires { r < 8 }
    ensures { result ≡ pick blank h (h - two_bits_of h r * 2 ^ (2 * r)) }
{
    h - (h & placed(choice(blank, 0, 3), r))
}

// A column of the strip, its row r painted over by a value: 0 leaves it as it was, any other is looked up in the
// palette.
pub fn shaded(h: u16, r: usize, palette: usize, v: usize) -> u16
    requires { (r < 8) × (v < 4) }
    ensures { result ≡ repainted_of r (shade_of palette v) h }
{
    kept(h, r, v == 0) + placed(choice(v == 0, 0, shade(palette, v)), r)
}

// The eight columns of a row are painted at once: without a branch, and by comparing each column's two bits where they
// stand in the row, so that all columns go through the same operations. A place is given by its unit, 1 shifted to the
// lower of its bits; a mask of all bits or none chooses between a column's own place and the mirrored one.

// The mask of a cell: all bits where it is flipped horizontally.
pub fn mirror(cell: usize) -> u16
    ensures { result ≡ pick (is_set 13 cell) 65535 0 }
{
    choice(cell / 8192 % 2 == 1, 65535, 0)
}

// The unit of a column's place in its row: of the mirrored place where the mask has all bits.
pub fn place(column: usize, mirror: u16) -> u16
    requires { column < 8 }
    ensures { (flip : Bool) → mirror ≡ pick flip 65535 0 → result ≡ 2 ^ (2 * flipped_of flip column) }
{
    let plain: u16 = 1 << (2 * column);
    let other: u16 = 1 << (2 * (7 - column));
    plain ^ ((plain ^ other) & mirror)
}

// Whether the value at a place of a row is n.
pub fn holds(row: u16, unit: u16, n: u16) -> bool
    requires { (PlaceUnit unit) × (n < 4) }
    ensures { (p : ℕ) → p < 8 → unit ≡ 2 ^ (2 * p) → result ≡ eqb (two_bits_of row p) n }
{
    row & (3 * unit) == n * unit
}

// What the value at a place of a row is painted as: its shade, nothing for 0.
pub fn tint(palette: usize, row: u16, unit: u16) -> u16
    requires { PlaceUnit unit }
    ensures { (result < 4)
        × ((p : ℕ) → p < 8 → unit ≡ 2 ^ (2 * p)
        → result ≡ pick (eqb (two_bits_of row p) 0) 0 (two_bits_of palette (two_bits_of row p))) }
{
    let one = choice(holds(row, unit, 1), shade(palette, 1), 0);
    let two = choice(holds(row, unit, 2), shade(palette, 2), 0);
    let three = choice(holds(row, unit, 3), shade(palette, 3), 0);
    one | two | three
}

// A column of the strip, its row r painted over by the value at a place of a character row.
pub fn painted(h: u16, r: usize, palette: usize, row: u16, unit: u16) -> u16
    requires { (r < 8) × (PlaceUnit unit) }
    ensures { (p : ℕ) → p < 8 → unit ≡ 2 ^ (2 * p)
        → result ≡ repainted_of r (shade_of palette (two_bits_of row p)) h }
{
    kept(h, r, holds(row, unit, 0)) + placed(tint(palette, row, unit), r)
}

// The eight columns of a character row painted over row r of the strip.
pub fn whole(
    buffer: &mut [u16; 384],
    from: usize,
    r: usize,
    cell: usize,
    row: usize,
    palette: usize,
)
    requires buffer_len { length buffer.old ≡ 384 }
    requires from_bound { (from + 8 ≤ 384) × (r < 8) }
    ensures { Span r from (from + 8) (λ x. shade_of palette (pixel_value_of cell row (x - from))) buffer.old
        buffer.new }
{
    let seen = (row % 65536) as u16;
    let flips = mirror(cell);
    let mut k = 0;
    while k < 8 {
        buffer[from + k] = painted(buffer[from + k], r, palette, seen, place(k, flips));
        k += 1;
    }
}

// The same for a span; `whole` is for the rows of a block. Each has one caller, so that the compiler inlines it into
// the caller's loop and works out palette and places once per cell (docs/changes/W5.md).
pub fn eight(
    buffer: &mut [u16; 384],
    from: usize,
    r: usize,
    cell: usize,
    row: usize,
    palette: usize,
)
    requires buffer_len { length buffer.old ≡ 384 }
    requires from_bound { (from + 8 ≤ 384) × (r < 8) }
    ensures { Span r from (from + 8) (λ x. shade_of palette (pixel_value_of cell row (x - from))) buffer.old
        buffer.new }
{
    let seen = (row % 65536) as u16;
    let flips = mirror(cell);
    let mut k = 0;
    while k < 8 {
        buffer[from + k] = painted(buffer[from + k], r, palette, seen, place(k, flips));
        k += 1;
    }
}

// Columns of a character row, from `column` on, painted over a run of the strip.
pub fn span(
    buffer: &mut [u16; 384],
    run: Run,
    cell: usize,
    row: usize,
    palette: usize,
    column: usize,
)
    requires buffer_len { length buffer.old ≡ 384 }
    requires from_le_to { (run.from ≤ run.to) × ((run.to ≤ 384) × ((run.row < 8) × (column + (run.to - run.from) ≤ 8))) }
    ensures { Span run.row run.from run.to
        (λ x. shade_of palette (pixel_value_of cell row (column + (x - run.from))))
        buffer.old buffer.new }
{
    if run.from + 8 == run.to {
        eight(buffer, run.from, run.row, cell, row, palette);
        return;
    }
    let mut x = run.from;
    while x < run.to {
        buffer[x] = shaded(
            buffer[x],
            run.row,
            palette,
            value(cell, row, column + (x - run.from)),
        );
        x += 1;
    }
}
