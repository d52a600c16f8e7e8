// Halfwords to instructions, as document 000's formats and its list of instructions by opcode give them.
// Fields come normalised: a jump's or branch's displacement has bit 0 clear, SETF's condition four bits,
// and unused bits are absent. Immediates and displacements are words: sign- or zero-extended as 000 says for each.
// These functions are `pub` for the crates above: internal, not calls of the library.
#![tactic(auto)]

mod format;
pub mod sub_opcode;

ghost use Rattle.std.specs.Prelude.{◌≡◌};
ghost use Rattle.processor_decode.specs.Format.{two_of};
ghost use Rattle.processor_decode.specs.Opcode.{decode_of};

use crate::format::Halfwords;
use crate::sub_opcode::{FloatingOperation, NintendoOperation};
pub use word::Width;

// What Format I does with reg1 and reg2, by opcode.
#[derive(Clone, Copy, Debug, PartialEq, Eq)]
pub enum RegisterOperation {
    Mov = 0,
    Add = 1,
    Sub = 2,
    Cmp = 3,
    Shl = 4,
    Shr = 5,
    Sar = 7,
    Or = 12,
    And = 13,
    Xor = 14,
    Not = 15,
}

// What Format II does with a five-bit immediate and reg2, by opcode.
#[derive(Clone, Copy, Debug, PartialEq, Eq)]
pub enum ImmediateOperation {
    Mov = 16,
    Add = 17,
    Cmp = 19,
    Shl = 20,
    Shr = 21,
    Sar = 23,
}

// What Format V does with a sixteen-bit immediate and reg1, by opcode.
#[derive(Clone, Copy, Debug, PartialEq, Eq)]
pub enum LongOperation {
    Movea = 40,
    Addi = 41,
    Ori = 44,
    Andi = 45,
    Xori = 46,
    Movhi = 47,
}

// The operands of an instruction, as 000 names them: registers by their numbers, the others as words.
pub type Reg1 = u32;

pub type Reg2 = u32;

pub type SystemRegister = u32;

pub type Cond = u32;

pub type Imm = u32;

pub type Disp = u32;

pub type Vector = u32;

// A modelled instruction. Illegal is the invalid opcode, which raises an exception.
#[derive(Clone, Copy)]
pub enum Instruction {
    Register(RegisterOperation, Reg1, Reg2),
    Mul(Reg1, Reg2),
    Div(Reg1, Reg2),
    Mulu(Reg1, Reg2),
    Divu(Reg1, Reg2),
    Jmp(Reg1),
    Immediate(ImmediateOperation, Imm, Reg2),
    Setf(Cond, Reg2),
    Cli,
    Sei,
    Trap(Vector),
    Reti,
    Halt,
    Ldsr(Reg2, SystemRegister),
    Stsr(SystemRegister, Reg2),
    Bcond(Cond, Disp),
    Jr(Disp),
    Jal(Disp),
    Long(LongOperation, Imm, Reg1, Reg2),
    Load(Width, Disp, Reg1, Reg2),
    In(Width, Disp, Reg1, Reg2),
    Store(Width, Disp, Reg1, Reg2),
    Out(Width, Disp, Reg1, Reg2),
    Illegal,
    Cmpf(Reg1, Reg2),
    Floating(FloatingOperation, Reg1, Reg2),
    Nintendo(NintendoOperation, Reg1, Reg2),
}

// The instruction of a first and a second halfword, or none where the model leaves it out (refusal 6); the second
// counts only where the first asks for it.
#[tactic(auto, unfolding(crate::specs::Opcode::decode_of, crate::specs::Opcode::short_rows, crate::specs::Opcode::branch_rows, crate::specs::Opcode::long_rows))]
pub fn decode(first: u16, second: u16) -> Option<Instruction>
    ensures { result ≡ decode_of first second }
{
    let h = Halfwords { first, second };
    match h.opcode() {
        // Formats I and II.
        0 => Some(h.register(RegisterOperation::Mov)),
        1 => Some(h.register(RegisterOperation::Add)),
        2 => Some(h.register(RegisterOperation::Sub)),
        3 => Some(h.register(RegisterOperation::Cmp)),
        4 => Some(h.register(RegisterOperation::Shl)),
        5 => Some(h.register(RegisterOperation::Shr)),
        6 => Some(Instruction::Jmp(h.low())),
        7 => Some(h.register(RegisterOperation::Sar)),
        8 => Some(Instruction::Mul(h.low(), h.reg2())),
        9 => Some(Instruction::Div(h.low(), h.reg2())),
        10 => Some(Instruction::Mulu(h.low(), h.reg2())),
        11 => Some(Instruction::Divu(h.low(), h.reg2())),
        12 => Some(h.register(RegisterOperation::Or)),
        13 => Some(h.register(RegisterOperation::And)),
        14 => Some(h.register(RegisterOperation::Xor)),
        15 => Some(h.register(RegisterOperation::Not)),
        16 => Some(h.immediate(ImmediateOperation::Mov, h.signed_low())),
        17 => Some(h.immediate(ImmediateOperation::Add, h.signed_low())),
        18 => Some(h.setf()),
        19 => Some(h.immediate(ImmediateOperation::Cmp, h.signed_low())),
        20 => Some(h.immediate(ImmediateOperation::Shl, h.low())),
        21 => Some(h.immediate(ImmediateOperation::Shr, h.low())),
        22 => Some(Instruction::Cli),
        23 => Some(h.immediate(ImmediateOperation::Sar, h.low())),
        24 => Some(Instruction::Trap(h.low())),
        25 => Some(Instruction::Reti),
        26 => Some(Instruction::Halt),
        28 => h.ldsr(),
        29 => h.stsr(),
        30 => Some(Instruction::Sei),
        // Format III.
        32..=39 => Some(h.branch()),
        // Formats IV to VII.
        40 => Some(h.long(LongOperation::Movea, h.signed())),
        41 => Some(h.long(LongOperation::Addi, h.signed())),
        42 => Some(Instruction::Jr(h.displacement())),
        43 => Some(Instruction::Jal(h.displacement())),
        44 => Some(h.long(LongOperation::Ori, h.unsigned())),
        45 => Some(h.long(LongOperation::Andi, h.unsigned())),
        46 => Some(h.long(LongOperation::Xori, h.unsigned())),
        47 => Some(h.long(LongOperation::Movhi, h.unsigned())),
        48 => Some(h.transfer(Instruction::Load, Width::Byte)),
        49 => Some(h.transfer(Instruction::Load, Width::Half)),
        51 => Some(h.transfer(Instruction::Load, Width::Word)),
        52 => Some(h.transfer(Instruction::Store, Width::Byte)),
        53 => Some(h.transfer(Instruction::Store, Width::Half)),
        55 => Some(h.transfer(Instruction::Store, Width::Word)),
        56 => Some(h.transfer(Instruction::In, Width::Byte)),
        57 => Some(h.transfer(Instruction::In, Width::Half)),
        59 => Some(h.transfer(Instruction::In, Width::Word)),
        60 => Some(h.transfer(Instruction::Out, Width::Byte)),
        61 => Some(h.transfer(Instruction::Out, Width::Half)),
        62 => sub_opcode::extended(u32::from(first), h.unsigned()),
        63 => Some(h.transfer(Instruction::Out, Width::Word)),
        27 | 50 | 54 => Some(Instruction::Illegal),
        // Bit strings and CAXI.
        _ => None,
    }
}

// Whether a second halfword is part of the instruction.
pub fn two(first: u16) -> bool
    ensures { result ≡ two_of first }
{
    let op = first / 1024;
    op >= 40 && !matches!(op, 50 | 54)
}
