// The fields of the instruction formats, and what each format makes of them.
ghost use Rattle.std.specs.Prelude.{◌≡◌, Some};
ghost use Rattle.word.specs.Extend.{extend_of};
ghost use Rattle.processor_decode.specs.Format.{opcode_of, low_of, reg2_of, register, immediate, long};
ghost use Rattle.processor_decode.specs.Format.{ldsr, stsr, setf, branch, disp_of};

use crate::{
    Disp, ImmediateOperation, Instruction, LongOperation, Reg1, Reg2, RegisterOperation, Width,
};

// A first and a second halfword.
#[derive(Clone, Copy)]
pub struct Halfwords {
    pub first: u16,
    pub second: u16,
}

impl Halfwords {
    // The top six bits.
    pub fn opcode(self) -> u16
        ensures { result ≡ opcode_of self.first }
    {
        self.first / 1024
    }

    // Bits 4-0: reg1, an immediate, a vector or a system register.
    pub fn low(self) -> u32
        ensures { result ≡ low_of self.first }
    {
        u32::from(self.first % 32)
    }

    // The same as an immediate that is sign-extended.
    pub fn signed_low(self) -> u32
        ensures { result ≡ extend_of 16 (low_of self.first) }
    {
        word::extend(16, self.low())
    }

    // Bits 9-5.
    pub fn reg2(self) -> u32
        ensures { result ≡ reg2_of self.first }
    {
        u32::from(self.first / 32 % 32)
    }

    // The second halfword, zero-extended.
    pub fn unsigned(self) -> u32
        ensures { result ≡ self.second }
    {
        u32::from(self.second)
    }

    // The second halfword, sign-extended.
    pub fn signed(self) -> u32
        ensures { result ≡ extend_of 32768 self.second }
    {
        word::extend(32768, self.unsigned())
    }

    // Format I: reg1 and reg2.
    pub fn register(self, op: RegisterOperation) -> Instruction
        ensures { Some result ≡ register op self.first }
    {
        Instruction::Register(op, self.low(), self.reg2())
    }

    // Format II: a five-bit immediate and reg2.
    pub fn immediate(self, op: ImmediateOperation, imm: u32) -> Instruction
        ensures { Some result ≡ immediate op imm self.first }
    {
        Instruction::Immediate(op, imm, self.reg2())
    }

    // Format II with a condition, of which the top bit is ignored.
    pub fn setf(self) -> Instruction
        ensures { Some result ≡ setf self.first }
    {
        Instruction::Setf(u32::from(self.first % 16), self.reg2())
    }

    // LDSR, but for register 24, the cache control word.
    pub fn ldsr(self) -> Option<Instruction>
        ensures { result ≡ ldsr self.first }
    {
        match self.low() {
            24 => None,
            register => Some(Instruction::Ldsr(self.reg2(), register)),
        }
    }

    // STSR, but for register 24, the cache control word.
    pub fn stsr(self) -> Option<Instruction>
        ensures { result ≡ stsr self.first }
    {
        match self.low() {
            24 => None,
            register => Some(Instruction::Stsr(register, self.reg2())),
        }
    }

    // Format III: a condition and a nine-bit displacement, bit 0 cleared.
    pub fn branch(self) -> Instruction
        ensures { Some result ≡ branch self.first }
    {
        let disp = word::extend(256, u32::from(self.first % 512 / 2 * 2));
        Instruction::Bcond(u32::from(self.first / 512 % 16), disp)
    }

    // Format IV: a 26-bit displacement, its high ten bits in the first halfword, bit 0 cleared.
    pub fn displacement(self) -> u32
        ensures { result ≡ disp_of self.first self.second }
    {
        let high = u32::from(self.first % 1024);
        word::extend(33554432, high * 65536 + u32::from(self.second / 2 * 2))
    }

    // Format V: a sixteen-bit immediate, reg1 and reg2.
    pub fn long(self, op: LongOperation, imm: u32) -> Instruction
        ensures { Some result ≡ long op imm self.first }
    {
        Instruction::Long(op, imm, self.low(), self.reg2())
    }

    // Format VI: a sixteen-bit displacement, the base register reg1 and the data register reg2.
    pub fn transfer<F: Fn(Width, Disp, Reg1, Reg2) -> Instruction>(
        self,
        instruction: F,
        width: Width,
    ) -> Instruction
        requires { F.IsAlwaysCallable instruction }
        ensures { F.post instruction width (extend_of 32768 self.second) (low_of self.first) (reg2_of self.first) result }
    {
        instruction(width, self.signed(), self.low(), self.reg2())
    }
}
