// The bytes of the background worlds, world 31 down.
ghost use Rattle.std.specs.Prelude.{◌≡◌, ◌+◌, ◌*◌, ◌<◌, ◌≤◌, length};
ghost use Rattle.bus.specs.Refusal.{vram_bytes};
ghost use Rattle.drawing_pixel.specs.World.{world_of};
ghost use Rattle.drawing_pixel.specs.inner.BiasedWindow.{world_covers_biased};
ghost use Rattle.drawing_pixel.specs.inner.BiasedSource.{source_x_biased, source_y_biased};
ghost use Rattle.drawing_laws.specs.PixelBytes.{affine_bytes_of, parameter_bytes_of};
ghost use Rattle.drawing_laws.specs.inner.SourceBytes.{cell_bytes_biased};
ghost use Rattle.drawing_laws.specs.inner.SourceBytes.{background_bytes_biased, world_bytes_biased, worlds_bytes_biased};
ghost use Rattle.drawing_bytes.specs.inner.Output.{Lists};
ghost use Rattle.drawing_pixel.specs.inner.Halfwords.{halfwords_of};

use crate::output::put_half;
use drawing_background::cell::cell_address;
use drawing_background::source::{
    affine_floor, affine_parameter, affine_shift, bias_index, normal_y, parameter,
    parameter_address, plain_left,
};
use drawing_pixel::character::row_address;
use drawing_pixel::field::{flag, half, wide};
use drawing_pixel::world::{World, columns, rows, window_left, world_at};

// Whether a background world covers a pixel.
pub fn covers(w: World, eye: usize, x: usize, y: usize) -> bool
    requires { (x < 384) × (y < 224) }
    ensures { result ≡ world_covers_biased (halfwords_of w) eye x y }
{
    if !flag(eye, w.flags) {
        return false;
    }
    let top = (wide(w.gy) + 32768) % 65536;
    if y + 32768 < top {
        return false;
    }
    if top + rows(w) <= y + 32768 {
        return false;
    }
    let left = window_left(w, eye);
    if x + 1024 < left {
        return false;
    }
    x + 1024 < left + columns(w)
}

// The source x of a window's offsets.
pub fn source_x(vram: &[u8], w: World, eye: usize, i: usize, j: usize) -> usize
    requires { (length vram.now ≡ vram_bytes) × ((i < 2048) × (j < 65536)) }
    ensures { result ≡ source_x_biased vram.now (halfwords_of w) eye i j }
{
    let bgm = w.flags / 4096 % 4;
    if bgm == 0 {
        return plain_left(w, eye) + i;
    }
    if bgm == 1 {
        let bias = (parameter(vram, w, bias_index(eye, j)) + 4096) % 8192;
        return plain_left(w, eye) + i + bias - 4096;
    }
    let n = i + affine_shift(eye, affine_parameter(vram, w, j, 1));
    affine_floor(
        affine_parameter(vram, w, j, 0),
        affine_parameter(vram, w, j, 3),
        n,
    )
}

// The source y of a window's offsets.
pub fn source_y(vram: &[u8], w: World, eye: usize, i: usize, j: usize) -> usize
    requires { (length vram.now ≡ vram_bytes) × ((i < 2048) × (j < 65536)) }
    ensures { result ≡ source_y_biased vram.now (halfwords_of w) eye i j }
{
    let bgm = w.flags / 4096 % 4;
    if bgm < 2 {
        return normal_y(w, j);
    }
    let n = i + affine_shift(eye, affine_parameter(vram, w, j, 1));
    affine_floor(
        affine_parameter(vram, w, j, 2),
        affine_parameter(vram, w, j, 4),
        n,
    )
}

// The five parameters of row j of an affine world.
pub fn list_affine(output: &mut [u32], n: usize, w: World, j: usize) -> usize
    requires { (n < 4096) × (j < 65536) }
    ensures { Lists output.old output.new n (affine_bytes_of (halfwords_of w) j) result }
{
    let mut next = put_half(output, n, parameter_address(w, 8 * j));
    next = put_half(output, next, parameter_address(w, 8 * j + 1));
    next = put_half(output, next, parameter_address(w, 8 * j + 2));
    next = put_half(output, next, parameter_address(w, 8 * j + 3));
    put_half(output, next, parameter_address(w, 8 * j + 4))
}

// The parameters of row j of a background world, by BGM.
pub fn list_parameters(output: &mut [u32], n: usize, w: World, eye: usize, j: usize) -> usize
    requires { (n < 4096) × (j < 65536) }
    ensures lists { Lists output.old output.new n (parameter_bytes_of (halfwords_of w) eye j) result }
    ensures upper_bound { result ≤ n + 10 }
{
    let bgm = w.flags / 4096 % 4;
    if bgm == 0 {
        return n;
    }
    if bgm == 1 {
        return put_half(output, n, parameter_address(w, bias_index(eye, j)));
    }
    list_affine(output, n, w, j)
}

// The cell of a source pixel and the character row that it leads to.
pub fn list_cell(vram: &[u8], output: &mut [u32], n: usize, w: World, sx: usize, sy: usize) -> usize
    requires { (length vram.now ≡ vram_bytes) × (n < 8192) }
    ensures { Lists output.old output.new n (cell_bytes_biased vram.now (halfwords_of w) sx sy) result }
{
    let at = cell_address(w, sx / 8, sy / 8);
    let cell = wide(half(vram, at));
    let next = put_half(output, n, at);
    put_half(output, next, row_address(cell, sy % 8))
}

// A background world's bytes, none where it does not cover the pixel.
pub fn list_background(
    vram: &[u8],
    output: &mut [u32],
    n: usize,
    w: World,
    eye: usize,
    x: usize,
    y: usize,
) -> usize
    requires { (length vram.now ≡ vram_bytes) × ((n < 4096) × ((x < 384) × (y < 224))) }
    ensures lists { Lists output.old output.new n (background_bytes_biased vram.now (halfwords_of w) eye x y) result }
    ensures upper_bound { result ≤ n + 14 }
{
    if !covers(w, eye, x, y) {
        return n;
    }
    let i = x + 1024 - window_left(w, eye);
    let j = y + 32768 - (wide(w.gy) + 32768) % 65536;
    let next = list_parameters(output, n, w, eye, j);
    list_cell(
        vram,
        output,
        next,
        w,
        source_x(vram, w, eye, i, j),
        source_y(vram, w, eye, i, j),
    )
}

// World k's bytes, those of its objects aside.
pub fn list_world(
    vram: &[u8],
    output: &mut [u32],
    n: usize,
    k: usize,
    eye: usize,
    x: usize,
    y: usize,
) -> usize
    requires { (length vram.now ≡ vram_bytes) × ((n < 4096) × ((k < 32) × ((x < 384) × (y < 224)))) }
    ensures lists { Lists output.old output.new n (world_bytes_biased vram.now (world_of vram.now k) eye x y) result }
    ensures upper_bound { result ≤ n + 14 }
{
    let w = world_at(vram, k);
    let flags = wide(w.flags);
    if flags < 16384 {
        return n;
    }
    if flags / 4096 % 4 == 3 {
        return n;
    }
    list_background(vram, output, n, w, eye, x, y)
}

// The bytes of worlds 31 to 0; END stops.
pub fn list_worlds(vram: &[u8], output: &mut [u32], eye: usize, x: usize, y: usize) -> usize
    requires { (length vram.now ≡ vram_bytes) × ((x < 384) × (y < 224)) }
    ensures lists { Lists output.old output.new 0 (worlds_bytes_biased vram.now eye x y 32) result }
    ensures upper_bound { result ≤ 448 }
{
    let mut n = 0;
    for k in (0..32).rev() {
        if wide(half(vram, 251904 + 32 * k)) / 64 % 2 == 1 {
            return n;
        }
        n = list_world(vram, output, n, k, eye, x, y);
    }
    n
}
