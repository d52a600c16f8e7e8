// The conditions of Bcond and SETF, by their numbers.
ghost use Rattle.std.specs.Prelude.{◌≡◌, ℕ};
ghost use Rattle.processor_arithmetic.specs.Condition.{condition_of};
ghost use Rattle.processor_lazy_flags.specs.inner.Packed.{packed_of};

use crate::Flags;
use crate::status::overflow;

// V.
pub fn overflowed(flags: Flags) -> bool
    ensures { (psw : ℕ) → result ≡ condition_of 0 (packed_of psw flags) }
{
    2147483648 <= overflow(flags)
}

// C.
pub fn carry(flags: Flags) -> bool
    ensures { (psw : ℕ) → result ≡ condition_of 1 (packed_of psw flags) }
{
    flags.addition / 4294967296 < flags.addition % 4294967296
}

// Z.
pub fn zero(flags: Flags) -> bool
    ensures { (psw : ℕ) → result ≡ condition_of 2 (packed_of psw flags) }
{
    flags.value == 0
}

// N.
pub fn negative(flags: Flags) -> bool
    ensures { (psw : ℕ) → result ≡ condition_of 4 (packed_of psw flags) }
{
    2147483648 <= flags.value
}

// LT.
pub fn less(flags: Flags) -> bool
    ensures { (psw : ℕ) → result ≡ condition_of 6 (packed_of psw flags) }
{
    2147483648 <= flags.value ^ overflow(flags)
}

// H.
pub fn higher(flags: Flags) -> bool
    ensures { (psw : ℕ) → result ≡ condition_of 11 (packed_of psw flags) }
{
    if carry(flags) {
        return false;
    }
    !zero(flags)
}

// GT.
pub fn greater(flags: Flags) -> bool
    ensures { (psw : ℕ) → result ≡ condition_of 15 (packed_of psw flags) }
{
    if zero(flags) {
        return false;
    }
    !less(flags)
}

pub fn holds(cond: u32, flags: Flags) -> bool
    ensures { (psw : ℕ) → result ≡ condition_of cond (packed_of psw flags) }
{
    match cond % 16 {
        0 => overflowed(flags),
        1 => carry(flags),
        2 => zero(flags),
        3 => !higher(flags),
        4 => negative(flags),
        5 => true,
        6 => less(flags),
        7 => !greater(flags),
        8 => !overflowed(flags),
        9 => !carry(flags),
        10 => !zero(flags),
        11 => higher(flags),
        12 => !negative(flags),
        13 => false,
        14 => !less(flags),
        _ => greater(flags),
    }
}
