// CMPF.S on words.
ghost use Rattle.std.specs.Prelude.{◌≡◌};
ghost use Rattle.processor_float.specs.Comparison.{comparison_of};

use crate::Compared;
use crate::arithmetic::reserved;

// x is reg2 and y is reg1.
pub fn compare(x: u32, y: u32) -> Compared
    ensures { result ≡ comparison_of x y }
{
    if reserved(x) || reserved(y) {
        return Compared::Reserved;
    }
    let a = f32::from_bits(x);
    let b = f32::from_bits(y);
    // by hand: partial_cmp tests for a NaN again, nine instructions more of a run's CMPF.S
    if a < b {
        return Compared::Lower;
    }
    if a == b {
        return Compared::Equal;
    }
    Compared::Higher
}
