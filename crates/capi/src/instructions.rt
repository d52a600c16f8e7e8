// Instructions to halfwords and back.
ghost use Rattle.std.specs.Prelude.{◌≡◌};
ghost use Rattle.processor_decode.specs.Opcode.{decode_of};
ghost use Rattle.processor_decode.specs.Format.{two_of};
ghost use Rattle.processor_encode.specs.Encode.{encoded_of};
ghost use Rattle.capi_code.specs.Instructions.{fields_in, encoded_at, decoded_at};

use capi_code::instructions::{VbDecoded, VbEncoded, VbInstruction};

#[unsafe(no_mangle)]
pub extern "C" fn vb_encode(instruction: VbInstruction) -> VbEncoded
    ensures { result ≡ encoded_at (encoded_of (fields_in instruction)) }
{
    capi_code::instructions::encode(instruction)
}

#[unsafe(no_mangle)]
pub extern "C" fn vb_decode(first: u16, second: u16) -> VbDecoded
    ensures { result ≡ decoded_at (decode_of first second) (two_of first) }
{
    capi_code::instructions::decode(first, second)
}
