// Painting a strip from a background: spans of a row, and blocks of columns and rows.
ghost use Rattle.std.specs.Prelude.{◌≡◌, ◌+◌, ◌-◌, ◌/◌, ◌%◌, ◌<◌, ◌≤◌, length, slice_index};
ghost use Rattle.bus.specs.Refusal.{vram_bytes};
ghost use Rattle.word.specs.LittleEndian.{half_at};
ghost use Rattle.drawing_pixel.specs.Character.{row_address_of, pixel_value_of, shade_of};
ghost use Rattle.drawing_pixel.specs.inner.BiasedCell.{cell_address_biased, source_pixel_biased};
ghost use Rattle.drawing_pixel.specs.inner.Buffer.{Span, Block};
ghost use Rattle.drawing_pixel.specs.inner.Halfwords.{halfwords_of};

use crate::cell::cell_address;
use bus::DrawingRegisters;
use drawing_pixel::character::row_address;
use drawing_pixel::field::{half, least, wide};
use drawing_pixel::paint::{Run, span, whole};
use drawing_pixel::world::World;

// Columns `from` to `to` - 1 of the strip's rows `top` to `bottom` - 1.
#[derive(Clone, Copy)]
pub struct Area {
    pub top: usize,
    pub bottom: usize,
    pub from: usize,
    pub to: usize,
}

// A source pixel of the background; x and y are biased by 2^23.
#[derive(Clone, Copy)]
pub struct Source {
    pub x: usize,
    pub y: usize,
}

// What a source pixel is picked from, and its seven neighbours of the same cell row: the cell, its character row and
// its palette.
#[derive(Clone, Copy)]
pub struct Fetched {
    pub cell: usize,
    pub row: usize,
    pub palette: usize,
}

// What source pixel (sx, sy) is picked from.
pub fn fetch(vram: &[u8], registers: &DrawingRegisters, w: World, sx: usize, sy: usize) -> Fetched
    requires { length vram.now ≡ vram_bytes }
    ensures { (result.cell ≡ half_at vram.now (cell_address_biased (halfwords_of w) (sx / 8) (sy / 8)))
        × ((result.row ≡ half_at vram.now (row_address_of result.cell (sy % 8)))
        × (result.palette ≡ slice_index registers.now (4 + result.cell / 16384))) }
{
    let cell = wide(half(vram, cell_address(w, sx / 8, sy / 8)));
    let row = wide(half(vram, row_address(cell, sy % 8)));
    let palette = wide(registers[4 + cell / 16384]);
    Fetched { cell, row, palette }
}

// A run whose source lies in one cell: its first column shows the source pixel, and so on to the right.
pub fn cell_span(
    vram: &[u8],
    registers: &DrawingRegisters,
    w: World,
    buffer: &mut [u16; 384],
    run: Run,
    source: Source,
)
    requires buffer_len { length buffer.old ≡ 384 }
    requires vram_len { (length vram.now ≡ vram_bytes)
        × ((run.from ≤ run.to)
        × ((run.to ≤ 384) × ((run.row < 8) × (source.x % 8 + (run.to - run.from) ≤ 8)))) }
    ensures { Span run.row run.from run.to
        (λ x. source_pixel_biased vram.now registers.now (halfwords_of w)
        (source.x + (x - run.from)) source.y)
        buffer.old buffer.new }
{
    let f = fetch(vram, registers, w, source.x, source.y);
    span(buffer, run, f.cell, f.row, f.palette, source.x % 8);
}

// A run that reads its background from the source pixel on to the right.
pub fn plain_span(
    vram: &[u8],
    registers: &DrawingRegisters,
    w: World,
    buffer: &mut [u16; 384],
    run: Run,
    source: Source,
)
    requires buffer_len { length buffer.old ≡ 384 }
    requires vram_len { (length vram.now ≡ vram_bytes)
        × ((run.from ≤ run.to) × ((run.to ≤ 384) × ((run.row < 8) × (source.x < 33554432)))) }
    ensures { Span run.row run.from run.to
        (λ x. source_pixel_biased vram.now registers.now (halfwords_of w)
        (source.x + (x - run.from)) source.y)
        buffer.old buffer.new }
{
    let mut x = run.from;
    while x < run.to {
        let at = source.x + (x - run.from);
        let end = least(run.to, x + (8 - at % 8));
        let part = Run {
            row: run.row,
            from: x,
            to: end,
        };
        cell_span(
            vram,
            registers,
            w,
            buffer,
            part,
            Source { x: at, y: source.y },
        );
        x = end;
    }
}

// An area of eight columns, which show a cell from its row y on.
pub fn whole_rows(
    vram: &[u8],
    buffer: &mut [u16; 384],
    area: Area,
    cell: usize,
    palette: usize,
    y: usize,
)
    requires buffer_len { length buffer.old ≡ 384 }
    requires vram_len { (length vram.now ≡ vram_bytes)
        × ((area.from + 8 ≡ area.to)
        × ((area.to ≤ 384)
        × ((area.top ≤ area.bottom) × ((area.bottom ≤ 8) × (y + (area.bottom - area.top) ≤ 8))))) }
    ensures { Block area.top area.bottom area.from area.to
        (λ x r. shade_of palette
        (pixel_value_of cell (half_at vram.now (row_address_of cell (y + (r - area.top)))) (x - area.from)))
        buffer.old buffer.new }
{
    let mut r = area.top;
    while r < area.bottom {
        let row = wide(half(vram, row_address(cell, y + (r - area.top))));
        whole(buffer, area.from, r, cell, row, palette);
        r += 1;
    }
}

// An area whose columns show a cell from its row y and its column `column` on.
pub fn part_rows(
    vram: &[u8],
    buffer: &mut [u16; 384],
    area: Area,
    cell: usize,
    palette: usize,
    column: usize,
    y: usize,
)
    requires buffer_len { length buffer.old ≡ 384 }
    requires vram_len { (length vram.now ≡ vram_bytes)
        × ((area.from ≤ area.to)
        × ((area.to ≤ 384)
        × ((area.top ≤ area.bottom)
        × ((area.bottom ≤ 8)
        × ((column + (area.to - area.from) ≤ 8) × (y + (area.bottom - area.top) ≤ 8)))))) }
    ensures { Block area.top area.bottom area.from area.to
        (λ x r. shade_of palette
        (pixel_value_of cell (half_at vram.now (row_address_of cell (y + (r - area.top))))
        (column + (x - area.from))))
        buffer.old buffer.new }
{
    let mut r = area.top;
    while r < area.bottom {
        let row = wide(half(vram, row_address(cell, y + (r - area.top))));
        let run = Run {
            row: r,
            from: area.from,
            to: area.to,
        };
        span(buffer, run, cell, row, palette, column);
        r += 1;
    }
}

// An area whose source lies in one cell: its first column and row show the source pixel, and so on right and down.
pub fn cell_block(
    vram: &[u8],
    registers: &DrawingRegisters,
    w: World,
    buffer: &mut [u16; 384],
    area: Area,
    source: Source,
)
    requires buffer_len { length buffer.old ≡ 384 }
    requires vram_len { (length vram.now ≡ vram_bytes)
        × ((area.from ≤ area.to)
        × ((area.to ≤ 384)
        × ((area.top ≤ area.bottom)
        × ((area.bottom ≤ 8)
        × ((source.x % 8 + (area.to - area.from) ≤ 8) × (source.y % 8 + (area.bottom - area.top) ≤ 8)))))) }
    ensures { Block area.top area.bottom area.from area.to
        (λ x r. source_pixel_biased vram.now registers.now (halfwords_of w)
        (source.x + (x - area.from)) (source.y + (r - area.top)))
        buffer.old buffer.new }
{
    let cell = wide(half(vram, cell_address(w, source.x / 8, source.y / 8)));
    let palette = wide(registers[4 + cell / 16384]);
    if area.from + 8 == area.to {
        whole_rows(vram, buffer, area, cell, palette, source.y % 8);
        return;
    }
    part_rows(
        vram,
        buffer,
        area,
        cell,
        palette,
        source.x % 8,
        source.y % 8,
    );
}

// An area whose source lies in one row of cells.
pub fn cells_block(
    vram: &[u8],
    registers: &DrawingRegisters,
    w: World,
    buffer: &mut [u16; 384],
    area: Area,
    source: Source,
)
    requires buffer_len { length buffer.old ≡ 384 }
    requires vram_len { (length vram.now ≡ vram_bytes)
        × ((area.from ≤ area.to)
        × ((area.to ≤ 384)
        × ((area.top ≤ area.bottom)
        × ((area.bottom ≤ 8)
        × ((source.x < 33554432) × (source.y % 8 + (area.bottom - area.top) ≤ 8)))))) }
    ensures { Block area.top area.bottom area.from area.to
        (λ x r. source_pixel_biased vram.now registers.now (halfwords_of w)
        (source.x + (x - area.from)) (source.y + (r - area.top)))
        buffer.old buffer.new }
{
    let mut x = area.from;
    while x < area.to {
        let at = source.x + (x - area.from);
        let next = least(area.to, x + (8 - at % 8));
        let part = Area {
            top: area.top,
            bottom: area.bottom,
            from: x,
            to: next,
        };
        cell_block(
            vram,
            registers,
            w,
            buffer,
            part,
            Source { x: at, y: source.y },
        );
        x = next;
    }
}

// An area that reads its background from the source pixel on right and down: its rows lie in one row of cells or in
// two.
pub fn plain_block(
    vram: &[u8],
    registers: &DrawingRegisters,
    w: World,
    buffer: &mut [u16; 384],
    area: Area,
    source: Source,
)
    requires buffer_len { length buffer.old ≡ 384 }
    requires vram_len { (length vram.now ≡ vram_bytes)
        × ((area.from ≤ area.to)
        × ((area.to ≤ 384)
        × ((area.top ≤ area.bottom)
        × ((area.bottom ≤ 8)
        × ((source.x < 33554432) × (source.y < 33554432)))))) }
    ensures { Block area.top area.bottom area.from area.to
        (λ x r. source_pixel_biased vram.now registers.now (halfwords_of w)
        (source.x + (x - area.from)) (source.y + (r - area.top)))
        buffer.old buffer.new }
{
    let mid = least(area.bottom, area.top + (8 - source.y % 8));
    let above = Area {
        top: area.top,
        bottom: mid,
        from: area.from,
        to: area.to,
    };
    cells_block(vram, registers, w, buffer, above, source);
    if mid == area.bottom {
        return;
    }
    let below = Area {
        top: mid,
        bottom: area.bottom,
        from: area.from,
        to: area.to,
    };
    let y = source.y + (mid - area.top);
    cells_block(vram, registers, w, buffer, below, Source { x: source.x, y });
}
