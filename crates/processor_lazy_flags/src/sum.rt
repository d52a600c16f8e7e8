// ADD, ADDI, SUB and CMP.
ghost use Rattle.std.specs.Prelude.{ℕ};
ghost use Rattle.processor_arithmetic.specs.Sum.{sum_of, difference_of};
ghost use Rattle.processor_lazy_flags.specs.inner.Packed.{packed_of, Gives};

use crate::Flags;
use crate::status::joined;

// reg2 + reg1, wrapped: the addition is its own.
pub fn add(a: u32, b: u32) -> Flags
    ensures { (psw : ℕ) (g : Flags) → Gives psw result (sum_of a b (packed_of psw g)) }
{
    let value = a.wrapping_add(b);
    Flags {
        addition: joined(value, a),
        value,
    }
}

// reg2 - reg1, wrapped. The difference and reg1 have the sum reg2: it borrows and overflows where that addition does.
pub fn sub(a: u32, b: u32) -> Flags
    ensures { (psw : ℕ) (g : Flags) → Gives psw result (difference_of a b (packed_of psw g)) }
{
    let value = a.wrapping_sub(b);
    Flags {
        addition: joined(a, value),
        value,
    }
}
