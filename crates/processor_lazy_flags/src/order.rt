// The flags of the floating instructions: of a comparison, or of a number's with zero; S and CY alike, OV cleared.
ghost use Rattle.std.specs.Prelude.{◌≡◌, ℕ, ◌%◌, ◌^◌, true, false, ◌==◌, nat_lt};
ghost use Rattle.processor_lazy_flags.specs.inner.Packed.{packed_of, ordered_of};

use crate::Flags;

pub fn lower() -> Flags
    ensures { (psw : ℕ) → packed_of psw result ≡ ordered_of psw false true }
{
    Flags {
        addition: 1,
        value: 2147483648,
    }
}

pub fn equal() -> Flags
    ensures { (psw : ℕ) → packed_of psw result ≡ ordered_of psw true false }
{
    Flags {
        addition: 0,
        value: 0,
    }
}

pub fn higher() -> Flags
    ensures { (psw : ℕ) → packed_of psw result ≡ ordered_of psw false false }
{
    Flags {
        addition: 0,
        value: 1,
    }
}

// After a number, whose word is w.
pub fn number(w: u32) -> Flags
    ensures { (psw : ℕ) → packed_of psw result ≡ ordered_of psw (w % 2 ^ 31 == 0) (nat_lt (2 ^ 31) w) }
{
    if w % 2147483648 == 0 {
        return equal();
    }
    if 2147483648 < w {
        return lower();
    }
    higher()
}
