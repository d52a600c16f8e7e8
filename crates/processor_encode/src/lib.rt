// Instructions to halfwords (paper 02, W8). An instruction's fields are tested against their ranges and put in their
// places, both by its format; what no halfwords decode to is refused by 12.
#![tactic(auto)]

mod format;
mod operation;
mod place;
mod range;

ghost use Rattle.std.specs.Prelude.{◌≡◌};
ghost use Rattle.processor_encode.specs.Encode.{encode_of, encoded_of};

use format::Format;
use processor_decode::Instruction;
use refusal::Refusal;

// An instruction as numbers: its operation and the fields of all formats. A field that its format does not have is 0.
#[derive(Clone, Copy, Debug, Default, PartialEq, Eq)]
pub struct Fields {
    pub operation: u32,
    pub reg1: u32,
    pub reg2: u32,
    pub condition: u32,
    pub immediate: u32,
}

// The halfwords of an instruction.
#[derive(Clone, Copy, Debug, PartialEq, Eq)]
pub enum Halfwords {
    One(u16),
    Two(u16, u16),
}

// The halfwords of an instruction, with unused bits clear; or the refusal, which is `Encoding`.
pub fn encode(i: Instruction) -> Result<Halfwords, Refusal>
    ensures { result ≡ encode_of i }
{
    encode_fields(Fields::from(i))
}

// The halfwords of the instruction with these fields.
#[tactic(auto, unfolding(crate::specs::Encode::encoded_of))]
pub fn encode_fields(x: Fields) -> Result<Halfwords, Refusal>
    ensures { result ≡ encoded_of x }
{
    let format = Format::of(x.operation);
    if format.fits(x) {
        format.halfwords(x)
    } else {
        Err(Refusal::Encoding)
    }
}
