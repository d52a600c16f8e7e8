// AND, OR, XOR and NOT: OV is cleared, CY kept.
ghost use Rattle.std.specs.Prelude.{◌≡◌};
ghost use Rattle.processor_arithmetic.specs.Bitwise.{bits_of, and_of, or_of, xor_of, not_of};

use crate::Outcome;
use crate::flag::keep_carry;

// A value with its S and Z.
fn value(value: u32, psw: u32) -> Outcome
    ensures { result ≡ bits_of value psw }
{
    Outcome {
        value,
        psw: keep_carry(psw, 0, value),
    }
}

pub fn and(a: u32, b: u32, psw: u32) -> Outcome
    ensures { result ≡ and_of a b psw }
{
    value(a & b, psw)
}

pub fn or(a: u32, b: u32, psw: u32) -> Outcome
    ensures { result ≡ or_of a b psw }
{
    value(a | b, psw)
}

pub fn xor(a: u32, b: u32, psw: u32) -> Outcome
    ensures { result ≡ xor_of a b psw }
{
    value(a ^ b, psw)
}

pub fn not(b: u32, psw: u32) -> Outcome
    ensures { result ≡ not_of b psw }
{
    value(!b, psw)
}
