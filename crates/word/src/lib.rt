// Numbers alone: sign extension and little-endian halfwords and words. proofs/ has the laws of whole numbers.
// These functions are `pub` for the crates above: internal, not calls of the library.
#![tactic(auto)]

mod width;

ghost use Rattle.std.specs.Prelude.{◌≡◌, ◌+◌, ◌*◌, ◌<◌, ◌≤◌, ◌^◌, length, get_or};
ghost use Rattle.word.specs.Extend.{extend_of};
ghost use Rattle.word.specs.LittleEndian.{half_at, word_at, put_half, put_word};

pub use width::{NoWidth, Width};

// A number of a width whose half range is `half`, with its sign copied to all bits above.
pub fn extend(half: u32, x: u32) -> u32
    requires { (half ≤ 2 ^ 31) × (x < 2 * half) }
    ensures { result ≡ extend_of half x }
{
    if x < half {
        return x;
    }
    x + (4294967295 - half - (half - 1))
}

// Byte i as a number.
pub fn byte_at(s: &[u8], i: usize) -> u32
    requires { i < length s.now }
    ensures { (result ≡ get_or s.now i 0) × (result < 256) }
{
    s[i] as u32
}

// The halfword at byte i, lowest byte first.
pub fn half_at(s: &[u8], i: usize) -> u32
    requires { i + 1 < length s.now }
    ensures { (result ≡ half_at s.now i) × (result < 65536) }
{
    byte_at(s, i) + 256 * byte_at(s, i + 1)
}

// The word at byte i, lowest byte first.
pub fn word_at(s: &[u8], i: usize) -> u32
    requires { i + 3 < length s.now }
    ensures { result ≡ word_at s.now i }
{
    half_at(s, i) + 65536 * half_at(s, i + 2)
}

// The low 16 bits of v stored as a halfword at byte i.
pub fn put_half(s: &mut [u8], i: usize, v: u32)
    requires { i + 1 < length s.old }
    ensures { s.new ≡ put_half s.old i v }
{
    s[i] = (v % 256) as u8;
    s[i + 1] = (v / 256 % 256) as u8;
}

// v stored as a word at byte i.
pub fn put_word(s: &mut [u8], i: usize, v: u32)
    requires { i + 3 < length s.old }
    ensures { s.new ≡ put_word s.old i v }
{
    put_half(s, i, v);
    put_half(s, i + 2, v / 65536);
}
