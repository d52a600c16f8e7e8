// The source of a window's offsets: parameters, and where a row of an affine world leads.
ghost use Rattle.std.specs.Prelude.{◌≡◌, ◌+◌, ◌*◌, ◌%◌, ◌^◌, ◌<◌, ◌≤◌, length};
ghost use Rattle.bus.specs.Refusal.{vram_bytes};
ghost use Rattle.drawing_pixel.specs.Background.{parameter_address_of, parameter_of, bias_index_of};
ghost use Rattle.drawing_pixel.specs.inner.BiasedSource.{plain_left_biased, normal_y_biased, affine_shift_biased};
ghost use Rattle.drawing_pixel.specs.inner.BiasedSource.{affine_floor_biased, affine_parameter_biased};
ghost use Rattle.drawing_background.specs.inner.Row.{affine_sum_of};
ghost use Rattle.drawing_pixel.specs.inner.Halfwords.{halfwords_of};

use drawing_pixel::field::{half, wide};
use drawing_pixel::world::World;

// Source x and y are kept plus 2^23, a multiple of every background's size, so that wrapping needs no correction. What
// a sum of biased fields is kept with is that less the fields' own biases: MX and MY have 4,096, MP 16,384 and an
// affine row's parameters 32,768 (drawing_pixel: specs/inner/BiasedSource).

// MX - MP: 2^23 - 4,096 + 16,384.
const LEFT_BIAS: usize = 8400896;
// MX + MP: 2^23 - 4,096 - 16,384.
const RIGHT_BIAS: usize = 8368128;
// MY: 2^23 - 4,096.
const DOWN_BIAS: usize = 8384512;
// 64 M + D n before it is divided by 512: 512 * 2^23 - 64 * 32,768. D's own bias, n times, is taken off by itself.
const AFFINE_BIAS: usize = 4292870144;

// Where parameter k of a world lies; its index wraps at 16 bits.
pub fn parameter_address(w: World, k: usize) -> usize
    ensures { (result ≡ parameter_address_of (halfwords_of w) k) × (result < 262143) }
{
    let index = std::num::wrapping_add_u16(w.parameters, (k % 65536) as u16);
    131072 + 2 * wide(index)
}

// Parameter k of a world.
pub fn parameter(vram: &[u8], w: World, k: usize) -> usize
    requires { length vram.now ≡ vram_bytes }
    ensures { (result ≡ parameter_of vram.now (halfwords_of w) k) × (result < 65536) }
{
    wide(half(vram, parameter_address(w, k)))
}

// MX less MP for the left eye, plus MP for the right one.
pub fn plain_left(w: World, eye: usize) -> usize
    ensures { (result ≡ plain_left_biased (halfwords_of w) eye) × ((8368128 ≤ result) × (result < 8409088)) }
{
    let mx = (wide(w.mx) + 4096) % 8192;
    let mp = (wide(w.mp) + 16384) % 32768;
    if eye == 0 {
        return mx + LEFT_BIAS - mp;
    }
    mx + mp + RIGHT_BIAS
}

// The source row of a normal or H-bias world's row j.
pub fn normal_y(w: World, j: usize) -> usize
    requires { j < 65536 }
    ensures { (result ≡ normal_y_biased (halfwords_of w) j) × (result < 16777216) }
{
    (wide(w.my) + 4096) % 8192 + DOWN_BIAS + j
}

// The index of an H-bias parameter.
pub fn bias_index(eye: usize, j: usize) -> usize
    requires { j < 65536 }
    ensures { result ≡ bias_index_of eye j }
{
    if eye == 0 {
        return 2 * j;
    }
    2 * j + 1
}

// Parameter k of row j of an affine world, biased by 32,768.
pub fn affine_parameter(vram: &[u8], w: World, j: usize, k: usize) -> usize
    requires { (length vram.now ≡ vram_bytes) × ((j < 65536) × (k < 8)) }
    ensures { (result ≡ affine_parameter_biased vram.now (halfwords_of w) j k) × (result < 65536) }
{
    (parameter(vram, w, 8 * j + k) + 32768) % 65536
}

// How far an affine row's MP moves an eye.
pub fn affine_shift(eye: usize, mp: usize) -> usize
    requires { mp < 65536 }
    ensures { (result ≡ affine_shift_biased eye mp) × (result ≤ 32768) }
{
    if eye == 0 {
        if mp < 32768 {
            return 32768 - mp;
        }
        return 0;
    }
    if mp < 32768 {
        return 0;
    }
    mp - 32768
}

// 512 times a source coordinate n steps along an affine row, with what is below one of it.
pub fn affine_sum(m: usize, d: usize, n: usize) -> usize
    requires { (m < 65536) × ((d < 65536) × (n < 65536)) }
    ensures { result ≡ affine_sum_of m d n }
{
    64 * m + d * n + AFFINE_BIAS - 32768 * n
}

// The same one step further.
pub fn affine_on(sum: usize, d: usize) -> usize
    requires { (32768 ≤ sum) × ((sum < 2 ^ 40) × (d < 65536)) }
    ensures { result + 32768 ≡ sum + d }
{
    sum + d - 32768
}

// A source coordinate n steps along an affine row.
pub fn affine_floor(m: usize, d: usize, n: usize) -> usize
    requires { (m < 65536) × ((d < 65536) × (n < 65536)) }
    ensures { result ≡ affine_floor_biased m d n }
{
    affine_sum(m, d, n) / 512
}
