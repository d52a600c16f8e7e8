// MUL and MULU.
ghost use Rattle.std.specs.Prelude.{◌≡◌, ℕ, ◌+◌, ◌*◌, ◌^◌, ◌<◌};
ghost use Rattle.processor_arithmetic.specs.Product.{overflows_of, words_of, multiply_of, multiply_unsigned_of};
ghost use Rattle.processor_lazy_flags.specs.inner.Packed.{packed_of, GivesPair};

use crate::status::{carry, cleared, made};
use crate::{Flags, Pair};
use processor_arithmetic::product::signed;

// 1 where a 64-bit product is not its low word read signed.
fn overflow(high: u32, low: u32) -> u32
    ensures { (result ≡ overflows_of (high * 2 ^ 32 + low)) × (result < 2) }
{
    if high == low / 2147483648 * 4294967295 {
        return 0;
    }
    1
}

// The two words of a 64-bit product. One below 2 ^ 31 does not overflow.
fn words(w: u64, flags: Flags) -> Pair
    ensures { (psw : ℕ) → GivesPair psw result (words_of w (packed_of psw flags)) }
{
    let low = (w % 4294967296) as u32;
    if w < 2147483648 {
        let flags = cleared(low, flags);
        return Pair { r30: 0, flags };
    }
    let r30 = (w / 4294967296) as u32;
    let ov = overflow(r30, low);
    let flags = made(low, carry(flags), ov);
    Pair { r30, flags }
}

pub fn mulu(a: u32, b: u32, flags: Flags) -> Pair
    ensures { (psw : ℕ) → GivesPair psw result (multiply_unsigned_of a b (packed_of psw flags)) }
{
    words(u64::from(a) * u64::from(b), flags)
}

pub fn mul(a: u32, b: u32, flags: Flags) -> Pair
    ensures { (psw : ℕ) → GivesPair psw result (multiply_of a b (packed_of psw flags)) }
{
    words(signed(a, b), flags)
}
