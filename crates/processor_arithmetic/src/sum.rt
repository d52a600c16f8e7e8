// ADD, ADDI, SUB and CMP.
ghost use Rattle.std.specs.Prelude.{◌≡◌};
ghost use Rattle.processor_arithmetic.specs.Sum.{sum_of, difference_of, compare_of};

use crate::Outcome;
use crate::flag::{bit, flags};

// reg2 + reg1.
pub fn add(a: u32, b: u32, psw: u32) -> Outcome
    ensures { result ≡ sum_of a b psw }
{
    let (value, cy) = a.overflowing_add(b);
    let (_, ov) = a.cast_signed().overflowing_add(b.cast_signed());
    Outcome {
        value,
        psw: flags(psw, bit(cy), bit(ov), value),
    }
}

// reg2 - reg1.
pub fn sub(a: u32, b: u32, psw: u32) -> Outcome
    ensures { result ≡ difference_of a b psw }
{
    let (value, cy) = a.overflowing_sub(b);
    let (_, ov) = a.cast_signed().overflowing_sub(b.cast_signed());
    Outcome {
        value,
        psw: flags(psw, bit(cy), bit(ov), value),
    }
}

// The flags of reg2 - reg1, with reg2 as it was.
pub fn cmp(a: u32, b: u32, psw: u32) -> Outcome
    ensures { result ≡ compare_of a b psw }
{
    Outcome {
        value: a,
        ..sub(a, b, psw)
    }
}
