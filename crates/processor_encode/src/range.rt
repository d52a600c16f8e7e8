// The ranges of the fields, by format.
ghost use Rattle.std.specs.Prelude.{◌≡◌, ◌≤◌, ◌^◌};
ghost use Rattle.processor_encode.specs.Range.{signed_in, even_in, system_fits, within, fits_of};

use crate::Fields;
use crate::format::Format;

// Whether a word is at least -half and below half.
#[tactic(auto, unfolding(crate::specs::Range::signed_in))]
fn signed(half: u32, x: u32) -> bool
    requires { half ≤ 2 ^ 31 }
    ensures { result ≡ signed_in half x }
{
    x < half || u32::MAX - half < x
}

// The same of an even word.
#[tactic(auto, unfolding(crate::specs::Range::even_in))]
fn even(half: u32, x: u32) -> bool
    requires { half ≤ 2 ^ 31 }
    ensures { result ≡ even_in half x }
{
    x % 2 == 0 && signed(half, x)
}

// Whether x is a system register that is modelled.
#[tactic(auto, unfolding(crate::specs::Range::system_fits))]
fn system(x: u32) -> bool
    ensures { result ≡ system_fits x }
{
    x < 32 && x != 24
}

impl Fields {
    // Whether each field is below its limit, and the immediate in its range.
    #[tactic(auto, unfolding(crate::specs::Range::within))]
    fn within(self, reg1: u32, reg2: u32, condition: u32, immediate: bool) -> bool
        ensures { result ≡ within self reg1 reg2 condition immediate }
    {
        self.reg1 < reg1 && self.reg2 < reg2 && self.condition < condition && immediate
    }
}

impl Format {
    // Whether the fields are in the ranges of the format.
    pub fn fits(self, x: Fields) -> bool
        ensures { result ≡ fits_of self x }
    {
        match self {
            Format::Registers => x.within(32, 32, 1, x.immediate == 0),
            Format::Target => x.within(32, 1, 1, x.immediate == 0),
            Format::SignedImmediate => x.within(1, 32, 1, signed(16, x.immediate)),
            Format::UnsignedImmediate => x.within(1, 32, 1, x.immediate < 32),
            Format::Condition => x.within(1, 32, 16, x.immediate == 0),
            Format::Vector => x.within(1, 1, 1, x.immediate < 32),
            Format::Bare => x.within(1, 1, 1, x.immediate == 0),
            Format::SystemRegister => x.within(1, 32, 1, system(x.immediate)),
            Format::Branch => x.within(1, 1, 16, even(256, x.immediate)),
            Format::Jump => x.within(1, 1, 1, even(33554432, x.immediate)),
            Format::SignedLong => x.within(32, 32, 1, signed(32768, x.immediate)),
            Format::UnsignedLong => x.within(32, 32, 1, x.immediate < 65536),
            Format::Extended => x.within(32, 32, 1, x.immediate == 0),
            Format::Exchange => x.within(1, 32, 1, x.immediate == 0),
            Format::Unlisted => false,
        }
    }
}
