// The record of an object: its halfwords, and its left edge.
ghost use Rattle.std.specs.Prelude.{◌≡◌, ◌<◌, length};
ghost use Rattle.bus.specs.Refusal.{vram_bytes};
ghost use Rattle.drawing_pixel.specs.Object.{object_of};
ghost use Rattle.drawing_pixel.specs.inner.BiasedObject.{object_left_biased};

use crate::field::{edge, half, wide};

// The four halfwords of an object.
pub type Object = [u16; 4];

// Where each stands (paper 01, "Objects"). JP's halfword has JLON and JRON too; CELL is the format of a map's cell.
pub const JX: usize = 0;

pub const JP: usize = 1;

pub const JY: usize = 2;

pub const CELL: usize = 3;

// Object k.
pub fn object(vram: &[u8], k: usize) -> Object
    requires { (length vram.now ≡ vram_bytes) × (k < 1024) }
    ensures { result ≡ object_of vram.now k }
{
    let a = 253952 + 8 * k;
    [
        half(vram, a),
        half(vram, a + 2),
        half(vram, a + 4),
        half(vram, a + 6),
    ]
}

// The left edge of an object for an eye, plus 1,024.
pub fn object_left(o: &Object, eye: usize) -> usize
    ensures { (result ≡ object_left_biased o.now eye) × (result < 2048) }
{
    edge(eye, (wide(o[JX]) + 512) % 1024, (wide(o[JP]) + 512) % 1024)
}
