// What a background world shows of a strip: its window clipped to the image, row after row.
ghost use Rattle.std.specs.Prelude.{◌≡◌, ◌+◌, ◌-◌, ◌*◌, ◌<◌, ◌≤◌, true, length};
ghost use Rattle.bus.specs.Refusal.{vram_bytes};
ghost use Rattle.drawing_pixel.specs.World.{bgm_of, world_shown_of};
ghost use Rattle.drawing_pixel.specs.inner.BiasedWindow.{window_left_biased, columns_biased};
ghost use Rattle.drawing_pixel.specs.inner.BiasedCell.{source_pixel_biased, background_pixel_biased};
ghost use Rattle.drawing_pixel.specs.inner.BiasedSource.{source_x_biased, source_y_biased};
ghost use Rattle.drawing_pixel.specs.inner.Buffer.{Span, Block, Strip};
ghost use Rattle.drawing_background.specs.inner.Row.{row_bias_of};
ghost use Rattle.drawing_pixel.specs.inner.Halfwords.{halfwords_of};

use crate::affine::{Course, along_span};
use crate::paint::{Area, Source, plain_block, plain_span};
use crate::source::{affine_parameter, affine_shift, bias_index, normal_y, parameter, plain_left};
use bus::DrawingRegisters;
use drawing_pixel::field::{clipped, flag, least, wide};
use drawing_pixel::paint::{Run, View};
use drawing_pixel::world::{World, columns, rows, window_left};

// Offsets in a world's window: column i of its row j.
#[derive(Clone, Copy)]
pub struct Offsets {
    pub i: usize,
    pub j: usize,
}

// A run whose first column has these offsets in an affine world's window.
pub fn affine_row(
    vram: &[u8],
    registers: &DrawingRegisters,
    w: World,
    buffer: &mut [u16; 384],
    run: Run,
    eye: usize,
    offsets: Offsets,
)
    requires buffer_len { length buffer.old ≡ 384 }
    requires vram_len { (length vram.now ≡ vram_bytes)
        × ((run.from ≤ run.to)
        × ((run.to ≤ 384)
        × ((run.row < 8) × ((offsets.i < 2048) × ((offsets.j < 65536) × (2 ≤ bgm_of (halfwords_of w))))))) }
    ensures { Span run.row run.from run.to
        (λ x. source_pixel_biased vram.now registers.now (halfwords_of w)
        (source_x_biased vram.now (halfwords_of w) eye (offsets.i + (x - run.from)) offsets.j)
        (source_y_biased vram.now (halfwords_of w) eye (offsets.i + (x - run.from)) offsets.j))
        buffer.old buffer.new }
{
    let mx = affine_parameter(vram, w, offsets.j, 0);
    let mp = affine_parameter(vram, w, offsets.j, 1);
    let my = affine_parameter(vram, w, offsets.j, 2);
    let dx = affine_parameter(vram, w, offsets.j, 3);
    let dy = affine_parameter(vram, w, offsets.j, 4);
    let n = offsets.i + affine_shift(eye, mp);
    along_span(
        vram,
        registers,
        w,
        buffer,
        run,
        Course { mx, my, dx, dy, n },
    );
}

// How far an H-bias world's row j is moved, plus 4,096; other worlds' rows are not.
pub fn row_bias(vram: &[u8], w: World, eye: usize, j: usize) -> usize
    requires { (length vram.now ≡ vram_bytes) × (j < 65536) }
    ensures { (result ≡ row_bias_of vram.now (halfwords_of w) eye j) × (result < 8192) }
{
    if w.flags / 4096 % 4 == 1 {
        return (parameter(vram, w, bias_index(eye, j)) + 4096) % 8192;
    }
    4096
}

// A run whose first column has these offsets in a world's window.
pub fn row(
    vram: &[u8],
    registers: &DrawingRegisters,
    w: World,
    buffer: &mut [u16; 384],
    run: Run,
    eye: usize,
    offsets: Offsets,
)
    requires buffer_len { length buffer.old ≡ 384 }
    requires vram_len { (length vram.now ≡ vram_bytes)
        × ((run.from ≤ run.to)
        × ((run.to ≤ 384) × ((run.row < 8) × ((offsets.i < 2048) × (offsets.j < 65536))))) }
    ensures { Span run.row run.from run.to
        (λ x. source_pixel_biased vram.now registers.now (halfwords_of w)
        (source_x_biased vram.now (halfwords_of w) eye (offsets.i + (x - run.from)) offsets.j)
        (source_y_biased vram.now (halfwords_of w) eye (offsets.i + (x - run.from)) offsets.j))
        buffer.old buffer.new }
{
    if 2 <= w.flags / 4096 % 4 {
        affine_row(vram, registers, w, buffer, run, eye, offsets);
        return;
    }
    let sx = plain_left(w, eye) + offsets.i + row_bias(vram, w, eye, offsets.j) - 4096;
    let sy = normal_y(w, offsets.j);
    plain_span(vram, registers, w, buffer, run, Source { x: sx, y: sy });
}

// A run of a strip whose columns are in the world's window; the row may be outside of it.
pub fn strip_row(
    vram: &[u8],
    registers: &DrawingRegisters,
    w: World,
    buffer: &mut [u16; 384],
    run: Run,
    view: View,
)
    requires buffer_len { length buffer.old ≡ 384 }
    requires vram_len { (length vram.now ≡ vram_bytes)
        × ((run.from ≤ run.to) × ((run.to ≤ 384) × ((run.row < 8) × (view.strip < 28)))) }
    requires eye_value { (world_shown_of (halfwords_of w) view.eye ≡ true)
        × ((window_left_biased (halfwords_of w) view.eye ≤ run.from + 1024)
        × (run.to + 1024 ≤ window_left_biased (halfwords_of w) view.eye + columns_biased (halfwords_of w))) }
    ensures { Span run.row run.from run.to
        (λ x. background_pixel_biased vram.now registers.now (halfwords_of w) view.eye
        x (8 * view.strip + run.row))
        buffer.old buffer.new }
{
    let top = (wide(w.gy) + 32768) % 65536;
    let y = 8 * view.strip + run.row + 32768;
    if y < top {
        return;
    }
    if top + rows(w) <= y {
        return;
    }
    let i = run.from + 1024 - window_left(w, view.eye);
    let j = y - top;
    row(vram, registers, w, buffer, run, view.eye, Offsets { i, j });
}

// How far a is past b, 0 where it is not.
pub fn past(a: usize, b: usize) -> usize
    ensures { result ≡ a - b }
{
    if a < b {
        return 0;
    }
    a - b
}

// A strip's columns `from` to `to` - 1, which are in a normal world's window; rows may be outside of it.
pub fn normal_block(
    vram: &[u8],
    registers: &DrawingRegisters,
    w: World,
    buffer: &mut [u16; 384],
    from: usize,
    to: usize,
    view: View,
)
    requires buffer_len { length buffer.old ≡ 384 }
    requires vram_len { (length vram.now ≡ vram_bytes)
        × ((from ≤ to) × ((to ≤ 384) × ((view.strip < 28) × (bgm_of (halfwords_of w) ≡ 0)))) }
    requires eye_value { (world_shown_of (halfwords_of w) view.eye ≡ true)
        × ((window_left_biased (halfwords_of w) view.eye ≤ from + 1024)
        × (to + 1024 ≤ window_left_biased (halfwords_of w) view.eye + columns_biased (halfwords_of w))) }
    ensures { Block 0 8 from to
        (λ x r. background_pixel_biased vram.now registers.now (halfwords_of w) view.eye
        x (8 * view.strip + r))
        buffer.old buffer.new }
{
    let top = (wide(w.gy) + 32768) % 65536;
    let y = 8 * view.strip + 32768;
    let first = least(8, past(top, y));
    let last = least(8, past(top + rows(w), y));
    if last <= first {
        return;
    }
    let sx = plain_left(w, view.eye) + (from + 1024 - window_left(w, view.eye));
    let sy = normal_y(w, y + first - top);
    let area = Area {
        top: first,
        bottom: last,
        from,
        to,
    };
    plain_block(vram, registers, w, buffer, area, Source { x: sx, y: sy });
}

// What a background world shows an eye of a strip, painted over what is there.
pub fn strip(
    vram: &[u8],
    registers: &DrawingRegisters,
    w: World,
    buffer: &mut [u16; 384],
    eye: usize,
    strip: usize,
)
    requires buffer_len { length buffer.old ≡ 384 }
    requires vram_len { (length vram.now ≡ vram_bytes) × (strip < 28) }
    ensures { Strip
        (λ x r. background_pixel_biased vram.now registers.now (halfwords_of w) eye
        x (8 * strip + r))
        buffer.old buffer.new }
{
    if !flag(eye, w.flags) {
        return;
    }
    let left = window_left(w, eye);
    let from = clipped(left);
    let to = clipped(left + columns(w));
    if to <= from {
        return;
    }
    if w.flags / 4096 % 4 == 0 {
        normal_block(vram, registers, w, buffer, from, to, View { eye, strip });
        return;
    }
    let mut r = 0;
    while r < 8 {
        let run = Run { row: r, from, to };
        strip_row(vram, registers, w, buffer, run, View { eye, strip });
        r += 1;
    }
}
