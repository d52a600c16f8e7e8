// DIV and DIVU, for a divisor that is not zero: the remainder for r30, the quotient for reg2. `pub` for the crates
// above alone, which raise the exception of a zero divisor.
ghost use Rattle.std.specs.Prelude.{◌≡◌, ◌<◌};
ghost use Rattle.processor_arithmetic.specs.Quotient.{divide_of, divide_unsigned_of};

use crate::Pair;
use crate::flag::{bit, keep_carry};

pub fn divu(a: u32, b: u32, psw: u32) -> Pair
    requires { 0 < b }
    ensures { result ≡ divide_unsigned_of a b psw }
{
    let reg2 = a / b;
    Pair {
        r30: a % b,
        reg2,
        psw: keep_carry(psw, 0, reg2),
    }
}

// It overflows for 0x80000000 by -1.
pub fn div(a: u32, b: u32, psw: u32) -> Pair
    requires { 0 < b }
    ensures { result ≡ divide_of a b psw }
{
    let dividend = a.cast_signed();
    let divisor = b.cast_signed();
    let (quotient, ov) = dividend.overflowing_div(divisor);
    let reg2 = quotient.cast_unsigned();
    Pair {
        r30: dividend.wrapping_rem(divisor).cast_unsigned(),
        reg2,
        psw: keep_carry(psw, bit(ov), reg2),
    }
}
