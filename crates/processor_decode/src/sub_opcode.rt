// Opcode 111110, Format VII: the top six bits of the second halfword are the sub-opcode, its other bits are ignored.
ghost use Rattle.std.specs.Prelude.{◌≡◌};
ghost use Rattle.processor_decode.specs.SubOpcode.{extended_of};

use crate::Instruction;

// What Format VII's floating instructions do but for CMPF.S, by sub-opcode.
#[derive(Clone, Copy, Debug, PartialEq, Eq)]
pub enum FloatingOperation {
    CvtWs = 2,
    CvtSw = 3,
    Addf = 4,
    Subf = 5,
    Mulf = 6,
    Divf = 7,
    TrncSw = 11,
}

// What Format VII's Nintendo instructions do, by sub-opcode.
#[derive(Clone, Copy, Debug, PartialEq, Eq)]
pub enum NintendoOperation {
    Xb = 8,
    Xh = 9,
    Rev = 10,
    Mpyhw = 12,
}

// The row of the sub-opcode, of the numbers of both halfwords; one that 000 does not list is illegal.
#[tactic(auto, unfolding(crate::specs::SubOpcode::extended_of, crate::specs::SubOpcode::sub_rows))]
pub fn extended(f: u32, s: u32) -> Option<Instruction>
    ensures { result ≡ extended_of f s }
{
    let floating = |op| Instruction::Floating(op, f % 32, f / 32 % 32);
    let nintendo = |op| Instruction::Nintendo(op, f % 32, f / 32 % 32);
    // XB and XH, of which the bits of reg1 are unused.
    let exchange = |op| Instruction::Nintendo(op, 0, f / 32 % 32);
    Some(match s / 1024 {
        0 => Instruction::Cmpf(f % 32, f / 32 % 32),
        2 => floating(FloatingOperation::CvtWs),
        3 => floating(FloatingOperation::CvtSw),
        4 => floating(FloatingOperation::Addf),
        5 => floating(FloatingOperation::Subf),
        6 => floating(FloatingOperation::Mulf),
        7 => floating(FloatingOperation::Divf),
        8 => exchange(NintendoOperation::Xb),
        9 => exchange(NintendoOperation::Xh),
        10 => nintendo(NintendoOperation::Rev),
        11 => floating(FloatingOperation::TrncSw),
        12 => nintendo(NintendoOperation::Mpyhw),
        _ => Instruction::Illegal,
    })
}
