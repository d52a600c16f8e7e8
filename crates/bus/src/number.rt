// Numbers of 1, 2 or 4 bytes in a memory, lowest byte first.
ghost use Rattle.std.specs.Prelude.{◌≡◌, ◌+◌, ◌^◌, ◌<◌, ◌≤◌, length};
ghost use Rattle.word.specs.Width.{bytes_of};
ghost use Rattle.word.specs.LittleEndian.{put_bytes};
ghost use Rattle.bus.specs.inner.Numbers.{number_at};

use word::Width;

// The number of a width from byte i on.
#[tactic(auto, using(crate::proofs::Numbers::numbers))]
#[inline(always)]
pub fn number_at(s: &[u8], width: Width, i: usize) -> u32
    requires { i + bytes_of width ≤ length s.now }
    ensures { (result ≡ number_at s.now (bytes_of width) i) × (result < 256 ^ bytes_of width) }
{
    match width {
        Width::Byte => word::byte_at(s, i),
        Width::Half => word::half_at(s, i),
        Width::Word => word::word_at(s, i),
    }
}

// The low bytes of a value, as many as the width has, stored from byte i on.
#[tactic(auto, using(crate::proofs::Numbers::numbers))]
#[inline(always)]
pub fn put_number(s: &mut [u8], width: Width, i: usize, value: u32)
    requires { i + bytes_of width ≤ length s.old }
    ensures { s.new ≡ put_bytes (bytes_of width) s.old i value }
{
    match width {
        Width::Byte => s[i] = (value % 256) as u8,
        Width::Half => word::put_half(s, i, value),
        Width::Word => word::put_word(s, i, value),
    }
}
