// DIV and DIVU, for a divisor that is not zero.
ghost use Rattle.std.specs.Prelude.{ℕ, ◌<◌};
ghost use Rattle.processor_arithmetic.specs.Quotient.{divide_of, divide_unsigned_of};
ghost use Rattle.processor_lazy_flags.specs.inner.Packed.{packed_of, GivesPair};

use crate::status::{carry, cleared, made, packed};
use crate::{Flags, Pair};

pub fn divu(a: u32, b: u32, flags: Flags) -> Pair
    requires { 0 < b }
    ensures { (psw : ℕ) → GivesPair psw result (divide_unsigned_of a b (packed_of psw flags)) }
{
    let r30 = a % b;
    let flags = cleared(a / b, flags);
    Pair { r30, flags }
}

// Two words that are not negative are divided as they are.
pub fn div(a: u32, b: u32, flags: Flags) -> Pair
    requires { 0 < b }
    ensures { (psw : ℕ) → GivesPair psw result (divide_of a b (packed_of psw flags)) }
{
    if a < 2147483648 && b < 2147483648 {
        return divu(a, b, flags);
    }
    let p = processor_arithmetic::quotient::div(a, b, packed(0, flags));
    let r30 = p.r30;
    let flags = made(p.reg2, carry(flags), p.psw / 4 % 2);
    Pair { r30, flags }
}
