// Rows of affine worlds: a cell is kept while the row stays in it.
ghost use Rattle.std.specs.Prelude.{◌≡◌, ◌+◌, ◌-◌, ◌*◌, ◌/◌, ◌%◌, ◌<◌, ◌≤◌, true, length};
ghost use Rattle.bus.specs.Refusal.{vram_bytes};
ghost use Rattle.word.specs.LittleEndian.{half_at};
ghost use Rattle.drawing_pixel.specs.Character.{flipped_of, pixel_value_of, shade_of};
ghost use Rattle.word.specs.Bit.{is_set};
ghost use Rattle.drawing_pixel.specs.inner.BiasedCell.{source_pixel_biased};
ghost use Rattle.drawing_pixel.specs.inner.BiasedSource.{affine_floor_biased};
ghost use Rattle.drawing_pixel.specs.inner.Buffer.{repainted_of, Span};
ghost use Rattle.drawing_background.specs.inner.Row.{inks_of, MapsOf, CellAt, Inked};
ghost use Rattle.drawing_pixel.specs.inner.Halfwords.{halfwords_of};

use crate::cell::{Maps, address_in, maps_of};
use crate::ink::{ink, inks, turned};
use crate::paint::{Source, plain_span};
use crate::source::{affine_floor, affine_on, affine_sum};
use bus::DrawingRegisters;
use drawing_pixel::character::character_address;
use drawing_pixel::field::{half, pair, wide};
use drawing_pixel::paint::Run;
use drawing_pixel::world::World;

// The way through the background of an affine row: n steps from (mx, my) along (dx, dy), each biased by 32,768.
#[derive(Clone, Copy)]
pub struct Course {
    pub mx: usize,
    pub my: usize,
    pub dx: usize,
    pub dy: usize,
    pub n: usize,
}

// A cell that was read for a row of the strip, with its palette and where its character begins, and the cell column and
// row that it was read for. What its pixels are painted by is worked out once: the bits that its flips turn in a
// position, and the shades of its palette.
#[derive(Clone, Copy)]
pub struct CellRead {
    pub u: usize,
    pub v: usize,
    pub cell: usize,
    pub palette: usize,
    pub character: usize,
    pub across: usize,
    pub down: usize,
    pub inks: u64,
}

// The cell at a cell column and row, for row r of the strip.
pub fn read(
    vram: &[u8],
    registers: &DrawingRegisters,
    w: World,
    maps: Maps,
    r: usize,
    u: usize,
    v: usize,
) -> CellRead
    requires { (length vram.now ≡ vram_bytes)
        × ((r < 8)
        × MapsOf (halfwords_of w) maps.over maps.first maps.beside maps.across maps.down) }
    ensures { (result.u ≡ u)
        × ((result.v ≡ v)
        × (CellAt vram.now registers.now (halfwords_of w) result.u result.v result.cell
        result.palette result.character
        × Inked r result.cell result.palette result.across result.down result.inks)) }
{
    let cell = wide(half(vram, address_in(w, maps, u, v)));
    let palette = wide(registers[4 + cell / 16384]);
    let character = character_address(cell % 2048);
    let across = 7 * (cell / 8192 % 2);
    let down = 7 * (cell / 4096 % 2);
    let inks = inks(palette, r);
    CellRead {
        u,
        v,
        cell,
        palette,
        character,
        across,
        down,
        inks,
    }
}

// Whether a cell was read for a cell column and row.
pub fn is_of(c: CellRead, u: usize, v: usize) -> bool
    ensures { result ≡ true → (c.u ≡ u) × (c.v ≡ v) }
{
    if c.u != u {
        return false;
    }
    c.v == v
}

// The cell at a cell column and row; it is read only where it is not the last one.
pub fn held(
    vram: &[u8],
    registers: &DrawingRegisters,
    w: World,
    maps: Maps,
    r: usize,
    last: CellRead,
    u: usize,
    v: usize,
) -> CellRead
    requires { (length vram.now ≡ vram_bytes)
        × ((r < 8)
        × (MapsOf (halfwords_of w) maps.over maps.first maps.beside maps.across maps.down
        × (CellAt vram.now registers.now (halfwords_of w) last.u last.v
        last.cell last.palette last.character
        × Inked r last.cell last.palette last.across last.down last.inks))) }
    ensures { (result.u ≡ u)
        × ((result.v ≡ v)
        × (CellAt vram.now registers.now (halfwords_of w) result.u result.v result.cell
        result.palette result.character
        × Inked r result.cell result.palette result.across result.down result.inks)) }
{
    if is_of(last, u, v) {
        return last;
    }
    read(vram, registers, w, maps, r, u, v)
}

// A column of the strip, its row r painted over by the pixel of a cell at source pixel (sx, sy). The mask has both bits
// of the row for each value but 0.
pub fn cell_shaded(
    vram: &[u8],
    h: u16,
    r: usize,
    mask: u64,
    c: CellRead,
    sx: usize,
    sy: usize,
) -> u16
    requires { (length vram.now ≡ vram_bytes)
        × ((r < 8)
        × ((mask ≡ inks_of 255 r)
        × ((c.character ≤ 131056) × Inked r c.cell c.palette c.across c.down c.inks))) }
    ensures { result ≡ repainted_of r
        (shade_of c.palette
        (pixel_value_of c.cell
        (half_at vram.now (c.character + 2 * flipped_of (is_set 12 c.cell) (sy % 8))) (sx % 8)))
        h }
{
    let row = wide(half(vram, c.character + 2 * turned(sy % 8, c.down)));
    let v = pair(row, turned(sx % 8, c.across));
    h - (h & ink(mask, v)) + ink(c.inks, v)
}

// A run of an affine world's row. Both sums go on by a step's addition from pixel to pixel.
pub fn affine_span(
    vram: &[u8],
    registers: &DrawingRegisters,
    w: World,
    buffer: &mut [u16; 384],
    run: Run,
    course: Course,
)
    requires buffer_len { length buffer.old ≡ 384 }
    requires vram_len { (length vram.now ≡ vram_bytes)
        × ((run.from ≤ run.to)
        × ((run.to ≤ 384)
        × ((run.row < 8)
        × ((course.mx < 65536)
        × ((course.my < 65536)
        × ((course.dx < 65536) × ((course.dy < 65536) × (course.n < 65000)))))))) }
    ensures { Span run.row run.from run.to
        (λ x. source_pixel_biased vram.now registers.now (halfwords_of w)
        (affine_floor_biased course.mx course.dx (course.n + (x - run.from)))
        (affine_floor_biased course.my course.dy (course.n + (x - run.from))))
        buffer.old buffer.new }
{
    let mask = inks(255, run.row);
    let maps = maps_of(w);
    let mut last = read(vram, registers, w, maps, run.row, 0, 0);
    let mut px = affine_sum(course.mx, course.dx, course.n);
    let mut py = affine_sum(course.my, course.dy, course.n);
    let mut x = run.from;
    while x < run.to {
        let sx = px / 512;
        let sy = py / 512;
        last = held(vram, registers, w, maps, run.row, last, sx / 8, sy / 8);
        buffer[x] = cell_shaded(vram, buffer[x], run.row, mask, last, sx, sy);
        px = affine_on(px, course.dx);
        py = affine_on(py, course.dy);
        x += 1;
    }
}

// The same where a step is one pixel to the right (DX 512 and DY 0, each biased by 32,768): the background is read as
// by a plain span.
pub fn level_span(
    vram: &[u8],
    registers: &DrawingRegisters,
    w: World,
    buffer: &mut [u16; 384],
    run: Run,
    course: Course,
)
    requires buffer_len { length buffer.old ≡ 384 }
    requires vram_len { (length vram.now ≡ vram_bytes)
        × ((run.from ≤ run.to)
        × ((run.to ≤ 384)
        × ((run.row < 8)
        × ((course.mx < 65536)
        × ((course.my < 65536)
        × ((course.dx ≡ 33280) × ((course.dy ≡ 32768) × (course.n < 65000)))))))) }
    ensures { Span run.row run.from run.to
        (λ x. source_pixel_biased vram.now registers.now (halfwords_of w)
        (affine_floor_biased course.mx course.dx (course.n + (x - run.from)))
        (affine_floor_biased course.my course.dy (course.n + (x - run.from))))
        buffer.old buffer.new }
{
    let sx = affine_floor(course.mx, 33280, course.n);
    let sy = affine_floor(course.my, 32768, course.n);
    plain_span(vram, registers, w, buffer, run, Source { x: sx, y: sy });
}

// A run of an affine world's row, by the steps that the row takes.
pub fn along_span(
    vram: &[u8],
    registers: &DrawingRegisters,
    w: World,
    buffer: &mut [u16; 384],
    run: Run,
    course: Course,
)
    requires buffer_len { length buffer.old ≡ 384 }
    requires vram_len { (length vram.now ≡ vram_bytes)
        × ((run.from ≤ run.to)
        × ((run.to ≤ 384)
        × ((run.row < 8)
        × ((course.mx < 65536)
        × ((course.my < 65536)
        × ((course.dx < 65536) × ((course.dy < 65536) × (course.n < 65000)))))))) }
    ensures { Span run.row run.from run.to
        (λ x. source_pixel_biased vram.now registers.now (halfwords_of w)
        (affine_floor_biased course.mx course.dx (course.n + (x - run.from)))
        (affine_floor_biased course.my course.dy (course.n + (x - run.from))))
        buffer.old buffer.new }
{
    if course.dx != 33280 {
        affine_span(vram, registers, w, buffer, run, course);
        return;
    }
    if course.dy != 32768 {
        affine_span(vram, registers, w, buffer, run, course);
        return;
    }
    level_span(vram, registers, w, buffer, run, course);
}
