// CVT.WS, CVT.SW and TRNC.SW. The two to whole numbers work on the fields of the word: a size of 2^31 or more has no
// fraction, so one comparison of words tells which operands are outside the signed word.
ghost use Rattle.std.specs.Prelude.{◌≡◌, ◌+◌, ◌*◌, ◌%◌, ◌^◌, ◌<◌, ◌≤◌};
ghost use Rattle.std.specs.Float.{binary32};
ghost use Rattle.std.specs.Float.Ieee.{of_int};
ghost use Rattle.std.specs.Float.Ieee.Nearest.{closest};
ghost use Rattle.processor_arithmetic.specs.Integer.{signed};
ghost use Rattle.processor_float.specs.Conversion.{nearest_size_of, truncated_size_of, outside_of, signed_word_of};
ghost use Rattle.processor_float.specs.Conversion.{nearest_of, truncated_of};

use crate::FloatOutcome;
use crate::arithmetic::reserved;

// CVT.WS: the float nearest to a signed word.
pub fn float_of(w: u32) -> f32
    ensures { result ≡ of_int binary32 (signed w) }
{
    std::num::nearest_i32_to_f32(w.cast_signed())
}

// m / 2^d to the nearest whole number, ties to even.
fn rounded(m: u32, d: u32) -> u32
    requires { (m < 2 ^ 24) × (d < 32) }
    ensures { result ≡ closest m (2 ^ d) }
{
    let whole = m >> d;
    let twice = 2 * (m - (whole << d));
    let one = 1 << d;
    if twice < one {
        whole
    } else if twice == one {
        whole + whole % 2
    } else {
        whole + 1
    }
}

// The size, 2^31 at most, to the nearest whole number, ties to even.
fn nearest_size(w: u32) -> u32
    requires { w % 2147483648 ≤ 0x4F000000 }
    ensures { result ≡ nearest_size_of w }
{
    let m = 8388608 + w % 8388608;
    match w / 8388608 % 256 {
        0..=125 => 0,
        e @ 126..=149 => rounded(m, 150 - e),
        e => m << (e - 150),
    }
}

// The size, 2^31 at most, without its fraction.
fn truncated_size(w: u32) -> u32
    requires { w % 2147483648 ≤ 0x4F000000 }
    ensures { result ≡ truncated_size_of w }
{
    let m = 8388608 + w % 8388608;
    match w / 8388608 % 256 {
        0..=126 => 0,
        e @ 127..=149 => m >> (150 - e),
        e => m << (e - 150),
    }
}

// Whether the size is above 2^31, or is 2^31 without a sign.
fn outside(w: u32) -> bool
    ensures { result ≡ outside_of w }
{
    0x4F000000 < w % 2147483648 || w == 0x4F000000
}

// The word of a size with the sign of w.
fn signed_word(w: u32, size: u32) -> u32
    ensures { result ≡ signed_word_of w size }
{
    if w < 2147483648 {
        size
    } else {
        size.wrapping_neg()
    }
}

// CVT.SW.
pub fn nearest(w: u32) -> FloatOutcome
    ensures { result ≡ nearest_of w }
{
    if reserved(w) {
        return FloatOutcome::Reserved;
    }
    if outside(w) {
        return FloatOutcome::Invalid;
    }
    FloatOutcome::Word(signed_word(w, nearest_size(w)))
}

// TRNC.SW.
pub fn truncated(w: u32) -> FloatOutcome
    ensures { result ≡ truncated_of w }
{
    if reserved(w) {
        return FloatOutcome::Reserved;
    }
    if outside(w) {
        return FloatOutcome::Invalid;
    }
    FloatOutcome::Word(signed_word(w, truncated_size(w)))
}
