// The flags that the floating instructions leave in PSW: FUD in bit 5; CY, OV, S and Z in bits 3 to 0.
ghost use Rattle.std.specs.Prelude.{◌≡◌};
ghost use Rattle.processor_float.specs.Flag.{order_flags_of, underflow_of, number_flags_of, comparison_flags_of};
ghost use Rattle.processor_float.specs.Flag.{conversion_flags_of};

use crate::Compared;
use processor_arithmetic::flag::bit;

// Z, and S and CY alike, with OV cleared.
fn order_flags(psw: u32, zero: bool, negative: bool) -> u32
    ensures { result ≡ order_flags_of psw zero negative }
{
    psw / 16 * 16 + bit(negative) * 10 + bit(zero)
}

// FUD, set where the result underflowed.
fn underflow(psw: u32, underflowed: bool) -> u32
    ensures { result ≡ underflow_of psw underflowed }
{
    if underflowed {
        return psw - psw / 32 % 2 * 32 + 32;
    }
    psw
}

// After a number, whose word is w.
pub fn number_flags(psw: u32, w: u32, underflowed: bool) -> u32
    ensures { result ≡ number_flags_of psw w underflowed }
{
    order_flags(
        underflow(psw, underflowed),
        w % 2147483648 == 0,
        2147483648 < w,
    )
}

// After CMPF.S; a reserved operand traps instead.
pub fn comparison_flags(psw: u32, c: Compared) -> u32
    ensures { result ≡ comparison_flags_of psw c }
{
    match c {
        Compared::Lower => order_flags(psw, false, true),
        Compared::Equal => order_flags(psw, true, false),
        Compared::Higher => order_flags(psw, false, false),
        Compared::Reserved => psw,
    }
}

// After CVT.SW and TRNC.SW, whose word is w.
pub fn conversion_flags(psw: u32, w: u32) -> u32
    ensures { result ≡ conversion_flags_of psw w }
{
    processor_arithmetic::flag::keep_carry(psw, 0, w)
}
