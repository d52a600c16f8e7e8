// SHL, SHR and SAR. The amount is the low five bits of b.
ghost use Rattle.std.specs.Prelude.{ℕ};
ghost use Rattle.processor_arithmetic.specs.Shift.{shift_left_of, shift_right_of, shift_arithmetic_of};
ghost use Rattle.processor_lazy_flags.specs.inner.Packed.{packed_of, Gives};

use crate::Flags;
use crate::status::carried;
use processor_arithmetic::shift::{arithmetic_right, right_out};

pub fn shl(a: u32, b: u32) -> Flags
    ensures { (psw : ℕ) (g : Flags) → Gives psw result (shift_left_of a b (packed_of psw g)) }
{
    let n = b % 32;
    let wide = u64::from(a) << n;
    carried((wide % 4294967296) as u32, (wide / 4294967296 % 2) as u32)
}

pub fn shr(a: u32, b: u32) -> Flags
    ensures { (psw : ℕ) (g : Flags) → Gives psw result (shift_right_of a b (packed_of psw g)) }
{
    let n = b % 32;
    carried(a >> n, right_out(a, n))
}

pub fn sar(a: u32, b: u32) -> Flags
    ensures { (psw : ℕ) (g : Flags) → Gives psw result (shift_arithmetic_of a b (packed_of psw g)) }
{
    let n = b % 32;
    carried(arithmetic_right(a, n), right_out(a, n))
}
