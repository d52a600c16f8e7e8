// The record of a world: its halfwords, and its window.
ghost use Rattle.std.specs.Prelude.{◌≡◌, ◌<◌, ◌≤◌, length};
ghost use Rattle.bus.specs.Refusal.{vram_bytes};
ghost use Rattle.drawing_pixel.specs.World.{world_of};
ghost use Rattle.drawing_pixel.specs.inner.BiasedWindow.{columns_biased, height_biased, rows_biased};
ghost use Rattle.drawing_pixel.specs.inner.BiasedWindow.{window_left_biased};
ghost use Rattle.drawing_pixel.specs.inner.Halfwords.{halfwords_of};

use crate::field::{edge, greatest, half, wide};

// A world's halfwords by paper 01's names ("World n"). `flags` has LON, RON, BGM, SCX, SCY, OVER, END and the first
// map; `parameters` is the base of the world's parameters.
#[derive(Clone, Copy)]
pub struct World {
    pub flags: u16,
    pub gx: u16,
    pub gp: u16,
    pub gy: u16,
    pub mx: u16,
    pub mp: u16,
    pub my: u16,
    pub width: u16,
    pub height: u16,
    pub parameters: u16,
    pub overplane: u16,
}

// World n.
pub fn world_at(vram: &[u8], n: usize) -> World
    requires { (length vram.now ≡ vram_bytes) × (n < 32) }
    ensures { halfwords_of result ≡ world_of vram.now n }
{
    let a = 251904 + 32 * n;
    World {
        flags: half(vram, a),
        gx: half(vram, a + 2),
        gp: half(vram, a + 4),
        gy: half(vram, a + 6),
        mx: half(vram, a + 8),
        mp: half(vram, a + 10),
        my: half(vram, a + 12),
        width: half(vram, a + 14),
        height: half(vram, a + 16),
        parameters: half(vram, a + 18),
        overplane: half(vram, a + 20),
    }
}

// The columns of a world.
pub fn columns(w: World) -> usize
    ensures { (result ≡ columns_biased (halfwords_of w)) × (result ≤ 4096) }
{
    let width = wide(w.width);
    if w.flags / 4096 % 4 == 2 {
        return width % 1024 + 1;
    }
    let biased = (width + 4096) % 8192;
    if biased < 4096 {
        return 0;
    }
    biased + 1 - 4096
}

// H + 1, and 0 where that is not above 0.
pub fn height(w: World) -> usize
    ensures { (result ≡ height_biased (halfwords_of w)) × (result ≤ 32768) }
{
    let biased = (wide(w.height) + 32768) % 65536;
    if biased < 32768 {
        return 0;
    }
    biased + 1 - 32768
}

// The rows of a world. GY is signed: as a halfword it is below 224 exactly where it is from 0 to 223, so that a strip
// of the image holds it.
pub fn rows(w: World) -> usize
    ensures { (result ≡ rows_biased (halfwords_of w)) × (result ≤ 32768) }
{
    let stored = height(w);
    let bgm = w.flags / 4096 % 4;
    if bgm == 2 {
        return stored;
    }
    let top = wide(w.gy);
    if top < 224 {
        return greatest(stored, 8 - top % 8);
    }
    stored
}

// The left edge of a world's window for an eye, plus 1,024.
pub fn window_left(w: World, eye: usize) -> usize
    ensures { (result ≡ window_left_biased (halfwords_of w) eye) × (result < 2048) }
{
    edge(eye, (wide(w.gx) + 512) % 1024, (wide(w.gp) + 512) % 1024)
}
