// Where the fields stand in the halfwords, by format. Each takes the low bits of its field, so every field is in its
// place alone.
ghost use Rattle.std.specs.Prelude.{◌≡◌};
ghost use Rattle.processor_encode.specs.Place.{placed, branch_placed, jump_placed, low_half, sub_opcode, halfwords_of};

use crate::format::Format;
use crate::{Fields, Halfwords};
use refusal::Refusal;

// The opcode in bits 15-10, reg2 in bits 9-5, reg1 or another field in bits 4-0.
fn placed(opcode: u32, reg2: u32, low: u32) -> u16
    ensures { result ≡ placed opcode reg2 low }
{
    (opcode % 64 * 1024 + reg2 % 32 * 32 + low % 32) as u16
}

// Bcond: the condition in bits 12-9, the offset in bits 8-0.
fn branch_placed(condition: u32, offset: u32) -> u16
    ensures { result ≡ branch_placed condition offset }
{
    (32768 + condition % 16 * 512 + offset % 512) as u16
}

// JR and JAL: bits 25-16 of the offset in bits 9-0 of the first halfword.
fn jump_placed(opcode: u32, offset: u32) -> u16
    ensures { result ≡ jump_placed opcode offset }
{
    (opcode % 64 * 1024 + offset / 65536 % 1024) as u16
}

// The low sixteen bits.
fn low_half(x: u32) -> u16
    ensures { result ≡ low_half x }
{
    (x % 65536) as u16
}

// The sub-opcode in bits 15-10 of the second halfword.
fn sub_opcode(operation: u32) -> u16
    ensures { result ≡ sub_opcode operation }
{
    (operation % 64 * 1024) as u16
}

impl Format {
    // The fields in their places.
    pub fn halfwords(self, x: Fields) -> Result<Halfwords, Refusal>
        ensures { result ≡ halfwords_of self x }
    {
        Ok(match self {
            Format::Registers => Halfwords::One(placed(x.operation, x.reg2, x.reg1)),
            Format::Target => Halfwords::One(placed(x.operation, 0, x.reg1)),
            Format::SignedImmediate | Format::UnsignedImmediate | Format::SystemRegister => {
                Halfwords::One(placed(x.operation, x.reg2, x.immediate))
            }
            Format::Condition => Halfwords::One(placed(x.operation, x.reg2, x.condition)),
            Format::Vector => Halfwords::One(placed(x.operation, 0, x.immediate)),
            Format::Bare => Halfwords::One(placed(x.operation, 0, 0)),
            Format::Branch => Halfwords::One(branch_placed(x.condition, x.immediate)),
            Format::Jump => Halfwords::Two(
                jump_placed(x.operation, x.immediate),
                low_half(x.immediate),
            ),
            Format::SignedLong | Format::UnsignedLong => Halfwords::Two(
                placed(x.operation, x.reg2, x.reg1),
                low_half(x.immediate),
            ),
            Format::Extended => Halfwords::Two(placed(62, x.reg2, x.reg1), sub_opcode(x.operation)),
            Format::Exchange => Halfwords::Two(placed(62, x.reg2, 0), sub_opcode(x.operation)),
            Format::Unlisted => return Err(Refusal::Encoding),
        })
    }
}
