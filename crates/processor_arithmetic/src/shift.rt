// SHL, SHR and SAR. The amount is the low five bits of b; CY is the last bit out, clear for amount 0.
ghost use Rattle.std.specs.Prelude.{◌≡◌, ◌<◌};
ghost use Rattle.processor_arithmetic.specs.Shift.{arithmetic_right_of, right_out_of, shift_left_of, shift_right_of};
ghost use Rattle.processor_arithmetic.specs.Shift.{shift_arithmetic_of, shifted_of};

use crate::Outcome;
use crate::flag::flags;

// A value, and the last bit out in CY.
fn shifted(value: u32, out: u32, psw: u32) -> Outcome
    requires { out < 2 }
    ensures { result ≡ shifted_of value out psw }
{
    Outcome {
        value,
        psw: flags(psw, out, 0, value),
    }
}

pub fn shl(a: u32, b: u32, psw: u32) -> Outcome
    ensures { result ≡ shift_left_of a b psw }
{
    let wide = u64::from(a) << (b % 32);
    shifted(
        (wide % 4294967296) as u32,
        (wide / 4294967296 % 2) as u32,
        psw,
    )
}

// The last bit out to the right.
pub fn right_out(a: u32, n: u32) -> u32
    requires { n < 32 }
    ensures { (result ≡ right_out_of a n) × (result < 2) }
{
    (((2 * u64::from(a)) >> n) % 2) as u32
}

pub fn shr(a: u32, b: u32, psw: u32) -> Outcome
    ensures { result ≡ shift_right_of a b psw }
{
    let n = b % 32;
    shifted(a >> n, right_out(a, n), psw)
}

// a shifted right with copies of its top bit.
pub fn arithmetic_right(a: u32, n: u32) -> u32
    requires { n < 32 }
    ensures { result ≡ arithmetic_right_of a n }
{
    (a.cast_signed() >> n).cast_unsigned()
}

pub fn sar(a: u32, b: u32, psw: u32) -> Outcome
    ensures { result ≡ shift_arithmetic_of a b psw }
{
    let n = b % 32;
    shifted(arithmetic_right(a, n), right_out(a, n), psw)
}
