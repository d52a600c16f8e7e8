// The bytes of the objects, 1,023 to 0, each once however often it is drawn.
ghost use Rattle.std.specs.Prelude.{◌≡◌, List, ℕ, ◌+◌, ◌*◌, ◌<◌, ◌≤◌, length, get_or};
ghost use Rattle.bus.specs.Refusal.{vram_bytes};
ghost use Rattle.word.specs.Choose.{pick};
ghost use Rattle.bus.specs.Registers.{spt_of};
ghost use Rattle.drawing_pixel.specs.inner.BiasedObject.{object_covers_biased};
ghost use Rattle.drawing_pixel.specs.Pixel.{draws_objects_of};
ghost use Rattle.drawing_laws.specs.Covers.{in_group_of};
ghost use Rattle.drawing_laws.specs.inner.SourceBytes.{objects_bytes_biased};
ghost use Rattle.drawing_bytes.specs.inner.Output.{Lists};
ghost use Rattle.drawing_bytes.specs.inner.Groups.{reached_object_worlds_of, in_groups_of, object_list_of};

use crate::output::put_half;
use bus::DrawingRegisters;
use drawing_objects::{group_count, object_row};
use drawing_pixel::character::row_address;
use drawing_pixel::field::{flag, half, wide};
use drawing_pixel::object::{CELL, JP, Object, object, object_left};

// 1 for a world whose first halfword makes it draw objects, else 0.
pub fn draws_objects(flags: usize) -> usize
    requires { flags < 65536 }
    ensures { ((w : List ℕ) → flags ≡ get_or w 0 0 → result ≡ pick (draws_objects_of w) 1 0) × (result ≤ 1) }
{
    if flags < 16384 {
        return 0;
    }
    if flags / 4096 % 4 == 3 {
        return 1;
    }
    0
}

// How many object worlds the loop reaches before END.
pub fn object_worlds(vram: &[u8]) -> usize
    requires { length vram.now ≡ vram_bytes }
    ensures { (result ≡ reached_object_worlds_of vram.now 32) × (result ≤ 32) }
{
    let mut found = 0;
    for k in (0..32).rev() {
        let flags = wide(half(vram, 251904 + 32 * k));
        if flags / 64 % 2 == 1 {
            return found;
        }
        found += draws_objects(flags);
    }
    found
}

// Whether object k is of group n.
pub fn in_group(registers: &DrawingRegisters, n: usize, k: usize) -> bool
    requires { (n < 4) × ((k < 1024) × ((g : ℕ) → g < 4 → spt_of registers.now g < 1024)) }
    ensures { result ≡ in_group_of registers.now n k }
{
    (wide(registers[n]) + 1024 - k) % 1024 < group_count(registers, n)
}

// Whether object k is of one of the groups that so many object worlds draw: 3, 2, 1, 0, 3, ..
pub fn in_groups(registers: &DrawingRegisters, worlds: usize, k: usize) -> bool
    requires { (worlds ≤ 32) × ((k < 1024) × ((g : ℕ) → g < 4 → spt_of registers.now g < 1024)) }
    ensures { result ≡ in_groups_of registers.now worlds 3 k }
{
    for world in 0..worlds {
        if in_group(registers, 3 - world % 4, k) {
            return true;
        }
    }
    false
}

// Whether an object's square holds a pixel, and the object is shown to the eye.
pub fn covers(o: &Object, eye: usize, x: usize, y: usize) -> bool
    requires { (x < 384) × (y < 224) }
    ensures { result ≡ object_covers_biased o.now eye x y }
{
    if !flag(eye, o[JP]) {
        return false;
    }
    if 8 <= object_row(o, y) {
        return false;
    }
    let left = object_left(o, eye);
    if x + 1024 < left {
        return false;
    }
    x + 1024 < left + 8
}

// A pixel of an eye's image.
#[derive(Clone, Copy)]
pub struct Pixel {
    pub eye: usize,
    pub x: usize,
    pub y: usize,
}

// Object k's bytes, none where no reached object world draws it over the pixel.
pub fn list_object(
    vram: &[u8],
    registers: &DrawingRegisters,
    output: &mut [u32],
    n: usize,
    k: usize,
    worlds: usize,
    pixel: Pixel,
) -> usize
    requires vram_len { (length vram.now ≡ vram_bytes) × ((n < 4096) × ((k < 1024) × ((pixel.x < 384) × (pixel.y < 224)))) }
    requires worlds_value { (worlds ≡ reached_object_worlds_of vram.now 32) × (worlds ≤ 32) }
    requires by_index { (g : ℕ) → g < 4 → spt_of registers.now g < 1024 }
    ensures lists { Lists output.old output.new n
        (object_list_of vram.now registers.now pixel.eye pixel.x pixel.y k) result }
    ensures upper_bound { result ≤ n + 2 }
{
    let o = object(vram, k);
    if !covers(&o, pixel.eye, pixel.x, pixel.y) {
        return n;
    }
    if !in_groups(registers, worlds, k) {
        return n;
    }
    put_half(
        output,
        n,
        row_address(wide(o[CELL]), object_row(&o, pixel.y)),
    )
}

// The bytes of objects 1,023 to 0.
pub fn list_objects(
    vram: &[u8],
    registers: &DrawingRegisters,
    output: &mut [u32],
    start: usize,
    worlds: usize,
    pixel: Pixel,
) -> usize
    requires vram_len { (length vram.now ≡ vram_bytes) × ((start < 1024) × ((pixel.x < 384) × (pixel.y < 224))) }
    requires worlds_value { (worlds ≡ reached_object_worlds_of vram.now 32) × (worlds ≤ 32) }
    requires by_index { (g : ℕ) → g < 4 → spt_of registers.now g < 1024 }
    ensures { Lists output.old output.new start
        (objects_bytes_biased vram.now registers.now pixel.eye pixel.x pixel.y 1024) result }
{
    let mut n = start;
    for k in (0..1024).rev() {
        n = list_object(vram, registers, output, n, k, worlds, pixel);
    }
    n
}
