// A pixel painted without a branch: a position is turned by the bits of a flip, and the shades of a palette stand in
// one number, so that a value takes its own by a shift.
ghost use Rattle.std.specs.Prelude.{◌≡◌, ◌*◌, ◌/◌, ◌%◌, ◌^◌, ◌<◌, ◌≤◌, Bool};
ghost use Rattle.word.specs.Choose.{pick};
ghost use Rattle.drawing_pixel.specs.Character.{flipped_of};
ghost use Rattle.drawing_background.specs.inner.Row.{inks_of};

// A position of 0 to 7, mirrored where the flip's bits are set.
pub fn turned(k: usize, bits: usize) -> usize
    requires { (k < 8) × (bits ≤ 7) }
    ensures { (result < 8) × ((flip : Bool) → bits ≡ pick flip 7 0 → result ≡ flipped_of flip k) }
{
    k ^ bits
}

// The shades of a palette at their place in row r of a column, 16 bits for each value; nothing for value 0.
pub fn inks(palette: usize, r: usize) -> u64
    requires { r < 8 }
    ensures { result ≡ inks_of palette r }
{
    let one = (palette / 4 % 4) as u64;
    let two = (palette / 16 % 4) as u64;
    let three = (palette / 64 % 4) as u64;
    (one * 65536 + two * 4294967296 + three * 281474976710656) << (2 * r)
}

// What a value is painted as.
pub fn ink(inks: u64, v: usize) -> u16
    requires { v < 4 }
    ensures { result ≡ inks / 2 ^ (16 * v) % 65536 }
{
    ((inks >> (16 * v)) % 65536) as u16
}
