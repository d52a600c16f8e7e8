// Instructions to halfwords and back.
ghost use Rattle.std.specs.Prelude.{◌≡◌};
ghost use Rattle.processor_decode.specs.Opcode.{decode_of};
ghost use Rattle.processor_decode.specs.Format.{two_of};
ghost use Rattle.processor_encode.specs.Encode.{encoded_of};
ghost use Rattle.capi_code.specs.Instructions.{fields_in, fields_out, encoded_at, decoded_at};

use processor_encode::{Fields, Halfwords};
use refusal::Refusal;

#[repr(C)]
#[derive(Clone, Copy, Default)]
pub struct VbInstruction {
    pub operation: u32,
    pub reg1: u32,
    pub reg2: u32,
    pub condition: u32,
    pub immediate: u32,
}

#[repr(C)]
#[derive(Clone, Copy, Default)]
pub struct VbEncoded {
    pub refusal: u32,
    pub halfwords: u32,
    pub first: u16,
    pub second: u16,
}

#[repr(C)]
#[derive(Clone, Copy, Default)]
pub struct VbDecoded {
    pub refusal: u32,
    pub halfwords: u32,
    pub instruction: VbInstruction,
}

impl From<VbInstruction> for Fields {
    ghost from_gives = { λ i x. x ≡ fields_in i };

    fn from(i: VbInstruction) -> Fields {
        Fields {
            operation: i.operation,
            reg1: i.reg1,
            reg2: i.reg2,
            condition: i.condition,
            immediate: i.immediate,
        }
    }
}

impl From<Fields> for VbInstruction {
    ghost from_gives = { λ x i. i ≡ fields_out x };

    fn from(x: Fields) -> VbInstruction {
        VbInstruction {
            operation: x.operation,
            reg1: x.reg1,
            reg2: x.reg2,
            condition: x.condition,
            immediate: x.immediate,
        }
    }
}

impl From<Result<Halfwords, Refusal>> for VbEncoded {
    ghost from_gives = { λ e encoded. encoded ≡ encoded_at e };

    fn from(e: Result<Halfwords, Refusal>) -> VbEncoded {
        match e {
            Ok(Halfwords::One(first)) => VbEncoded {
                halfwords: 1,
                first,
                ..VbEncoded::default()
            },
            Ok(Halfwords::Two(first, second)) => VbEncoded {
                refusal: 0,
                halfwords: 2,
                first,
                second,
            },
            Err(refusal) => VbEncoded {
                refusal: u32::from(refusal),
                ..VbEncoded::default()
            },
        }
    }
}

pub fn encode(instruction: VbInstruction) -> VbEncoded
    ensures { result ≡ encoded_at (encoded_of (fields_in instruction)) }
{
    VbEncoded::from(processor_encode::encode_fields(Fields::from(instruction)))
}

pub fn decode(first: u16, second: u16) -> VbDecoded
    ensures { result ≡ decoded_at (decode_of first second) (two_of first) }
{
    match processor_decode::decode(first, second) {
        Some(i) => VbDecoded {
            refusal: 0,
            halfwords: if processor_decode::two(first) { 2 } else { 1 },
            instruction: VbInstruction::from(Fields::from(i)),
        },
        None => VbDecoded {
            refusal: u32::from(Refusal::NotModelled),
            ..VbDecoded::default()
        },
    }
}
