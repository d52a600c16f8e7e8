// An instruction's operation number and fields.
ghost use Rattle.std.specs.Prelude.{◌≡◌, ◌<◌};
ghost use Rattle.processor_encode.specs.Fields.{fields_of, numbers, width_number};

use crate::Fields;
use processor_decode::{Disp, Instruction, Reg1, Reg2, Width};

impl Fields {
    // An operation with no fields.
    fn of(operation: u32) -> Fields
        ensures { result ≡ numbers operation 0 0 0 0 }
    {
        Fields {
            operation,
            ..Fields::default()
        }
    }

    fn reg1(self, reg1: u32) -> Fields
        ensures { result ≡ numbers self.operation reg1 self.reg2 self.condition self.immediate }
    {
        Fields { reg1, ..self }
    }

    fn reg2(self, reg2: u32) -> Fields
        ensures { result ≡ numbers self.operation self.reg1 reg2 self.condition self.immediate }
    {
        Fields { reg2, ..self }
    }

    fn condition(self, condition: u32) -> Fields
        ensures { result ≡ numbers self.operation self.reg1 self.reg2 condition self.immediate }
    {
        Fields { condition, ..self }
    }

    fn immediate(self, immediate: u32) -> Fields
        ensures { result ≡ numbers self.operation self.reg1 self.reg2 self.condition immediate }
    {
        Fields { immediate, ..self }
    }
}

// A load, store, input or output whose byte operation is `byte`.
fn transfer(byte: u32, width: Width, disp: Disp, reg1: Reg1, reg2: Reg2) -> Fields
    requires { byte < 64 }
    ensures { result ≡ numbers (width_number byte width) reg1 reg2 0 disp }
{
    let operation = match width {
        Width::Byte => byte,
        Width::Half => byte + 1,
        Width::Word => byte + 3,
    };
    Fields::of(operation).reg1(reg1).reg2(reg2).immediate(disp)
}

impl From<Instruction> for Fields {
    ghost from_gives = { λ i fields. fields ≡ fields_of i };

    fn from(i: Instruction) -> Fields {
        match i {
            Instruction::Register(op, reg1, reg2) => Fields::of(op as u32).reg1(reg1).reg2(reg2),
            Instruction::Mul(reg1, reg2) => Fields::of(8).reg1(reg1).reg2(reg2),
            Instruction::Div(reg1, reg2) => Fields::of(9).reg1(reg1).reg2(reg2),
            Instruction::Mulu(reg1, reg2) => Fields::of(10).reg1(reg1).reg2(reg2),
            Instruction::Divu(reg1, reg2) => Fields::of(11).reg1(reg1).reg2(reg2),
            Instruction::Jmp(reg1) => Fields::of(6).reg1(reg1),
            Instruction::Immediate(op, imm, reg2) => Fields::of(op as u32)
                .reg2(reg2)
                .immediate(imm),
            Instruction::Setf(cond, reg2) => Fields::of(18).reg2(reg2).condition(cond),
            Instruction::Cli => Fields::of(22),
            Instruction::Sei => Fields::of(30),
            Instruction::Trap(vector) => Fields::of(24).immediate(vector),
            Instruction::Reti => Fields::of(25),
            Instruction::Halt => Fields::of(26),
            Instruction::Ldsr(reg2, id) => Fields::of(28).reg2(reg2).immediate(id),
            Instruction::Stsr(id, reg2) => Fields::of(29).reg2(reg2).immediate(id),
            Instruction::Bcond(cond, disp) => Fields::of(32).condition(cond).immediate(disp),
            Instruction::Jr(disp) => Fields::of(42).immediate(disp),
            Instruction::Jal(disp) => Fields::of(43).immediate(disp),
            Instruction::Long(op, imm, reg1, reg2) => {
                Fields::of(op as u32).reg1(reg1).reg2(reg2).immediate(imm)
            }
            Instruction::Load(width, disp, reg1, reg2) => transfer(48, width, disp, reg1, reg2),
            Instruction::Store(width, disp, reg1, reg2) => transfer(52, width, disp, reg1, reg2),
            Instruction::In(width, disp, reg1, reg2) => transfer(56, width, disp, reg1, reg2),
            Instruction::Out(width, disp, reg1, reg2) => transfer(60, width, disp, reg1, reg2),
            Instruction::Illegal => Fields::of(255),
            Instruction::Cmpf(reg1, reg2) => Fields::of(64).reg1(reg1).reg2(reg2),
            Instruction::Floating(op, reg1, reg2) => {
                Fields::of(64 + op as u32).reg1(reg1).reg2(reg2)
            }
            Instruction::Nintendo(op, reg1, reg2) => {
                Fields::of(64 + op as u32).reg1(reg1).reg2(reg2)
            }
        }
    }
}
