// MUL and MULU: the high word for r30, the low word for reg2, and OV.
ghost use Rattle.std.specs.Prelude.{◌≡◌, ◌≤◌, ◌^◌};
ghost use Rattle.processor_arithmetic.specs.Sign.{magnitude_of};
ghost use Rattle.processor_arithmetic.specs.Product.{extend64_of, words_of, product_of, multiply_of, multiply_unsigned_of};

use crate::Pair;
use crate::flag::{bit, keep_carry};

// A signed word at 64 bits.
fn extend64(x: u32) -> u64
    ensures { result ≡ extend64_of x }
{
    i64::from(x.cast_signed()).cast_unsigned()
}

// The two words of a 64-bit product, with OV.
fn words(w: u64, psw: u32) -> Pair
    ensures { result ≡ words_of w psw }
{
    let r30 = (w / 4294967296) as u32;
    let reg2 = (w % 4294967296) as u32;
    Pair {
        r30,
        reg2,
        psw: keep_carry(psw, bit(w != extend64(reg2)), reg2),
    }
}

// A word's distance from 0, read signed.
pub fn magnitude(a: u32) -> u32
    ensures { (result ≡ magnitude_of a) × (result ≤ 2 ^ 31) }
{
    a.cast_signed().unsigned_abs()
}

pub fn mulu(a: u32, b: u32, psw: u32) -> Pair
    ensures { result ≡ multiply_unsigned_of a b psw }
{
    words(u64::from(a) * u64::from(b), psw)
}

// The product of the signed words, at 64 bits.
pub fn signed(a: u32, b: u32) -> u64
    ensures { result ≡ product_of a b }
{
    (i64::from(a.cast_signed()) * i64::from(b.cast_signed())).cast_unsigned()
}

pub fn mul(a: u32, b: u32, psw: u32) -> Pair
    ensures { result ≡ multiply_of a b psw }
{
    words(signed(a, b), psw)
}
