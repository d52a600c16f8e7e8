// The reads of VRAM, and the small arithmetic of fields and edges that every record shares.
ghost use Rattle.std.specs.Prelude.{◌≡◌, ◌-◌, ◌<◌, min, max, length};
ghost use Rattle.bus.specs.Refusal.{vram_bytes};
ghost use Rattle.word.specs.Choose.{pick};
ghost use Rattle.word.specs.LittleEndian.{half_at};
ghost use Rattle.drawing_pixel.specs.inner.BiasedFields.{edge_biased};
ghost use Rattle.drawing_pixel.specs.Flags.{eye_flag_of};
ghost use Rattle.drawing_pixel.specs.Character.{two_bits_of};

// The halfword at an address of VRAM.
pub fn half(vram: &[u8], a: usize) -> u16
    requires { (length vram.now ≡ vram_bytes) × (a < 262143) }
    ensures { result ≡ half_at vram.now a }
{
    word::half_at(vram, a) as u16
}

// A halfword as a number that addresses are made of.
pub fn wide(h: u16) -> usize
    ensures { (result ≡ h) × (result < 65536) }
{
    h as usize
}

// The lesser of two numbers.
pub fn least(a: usize, b: usize) -> usize
    ensures { result ≡ min a b }
{
    if a < b {
        return a;
    }
    b
}

// The greater of two numbers.
pub fn greatest(a: usize, b: usize) -> usize
    ensures { result ≡ max a b }
{
    if a < b {
        return b;
    }
    a
}

// The first of two halfwords where b holds, else the second.
pub fn choice(b: bool, x: u16, y: u16) -> u16
    ensures { result ≡ pick b x y }
{
    if b {
        return x;
    }
    y
}

// Whether a halfword's flag for an eye is set: bit 15 left, bit 14 right.
pub fn flag(eye: usize, h: u16) -> bool
    ensures { result ≡ eye_flag_of eye h }
{
    if eye == 0 {
        return h / 32768 % 2 == 1;
    }
    h / 16384 % 2 == 1
}

// Bits 2k and 2k + 1 of a number.
pub fn pair(h: usize, k: usize) -> usize
    requires { k < 8 }
    ensures { (result ≡ two_bits_of h k) × (result < 4) }
{
    (h >> (2 * k)) % 4
}

// A position less its parallax for the left eye, plus it for the right one, plus 1,024.
pub fn edge(eye: usize, position: usize, parallax: usize) -> usize
    requires { (position < 1024) × (parallax < 1024) }
    ensures { (result ≡ edge_biased eye position parallax) × (result < 2048) }
{
    if eye == 0 {
        return position + 1024 - parallax;
    }
    position + parallax
}

// The image column at an edge that is kept plus 1,024: 0 left of the image, 384 right of it.
pub fn clipped(edge: usize) -> usize
    requires { edge < 8192 }
    ensures { result ≡ min edge 1408 - 1024 }
{
    if edge < 1024 {
        return 0;
    }
    least(edge, 1408) - 1024
}
