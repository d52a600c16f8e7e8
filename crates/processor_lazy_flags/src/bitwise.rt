// AND, OR, XOR and NOT: OV is cleared, CY kept.
ghost use Rattle.std.specs.Prelude.{ℕ};
ghost use Rattle.processor_arithmetic.specs.Bitwise.{bits_of, and_of, or_of, xor_of, not_of};
ghost use Rattle.processor_lazy_flags.specs.inner.Packed.{packed_of, Gives};

use crate::Flags;
use crate::status::cleared;

// A value with its S and Z.
pub fn value(v: u32, flags: Flags) -> Flags
    ensures { (psw : ℕ) → Gives psw result (bits_of v (packed_of psw flags)) }
{
    cleared(v, flags)
}

pub fn and(a: u32, b: u32, flags: Flags) -> Flags
    ensures { (psw : ℕ) → Gives psw result (and_of a b (packed_of psw flags)) }
{
    value(a & b, flags)
}

pub fn or(a: u32, b: u32, flags: Flags) -> Flags
    ensures { (psw : ℕ) → Gives psw result (or_of a b (packed_of psw flags)) }
{
    value(a | b, flags)
}

pub fn xor(a: u32, b: u32, flags: Flags) -> Flags
    ensures { (psw : ℕ) → Gives psw result (xor_of a b (packed_of psw flags)) }
{
    value(a ^ b, flags)
}

pub fn not(b: u32, flags: Flags) -> Flags
    ensures { (psw : ℕ) → Gives psw result (not_of b (packed_of psw flags)) }
{
    value(4294967295 - b, flags)
}
