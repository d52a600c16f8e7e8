// What the register and immediate instructions compute: a result for reg2, and PSW.
ghost use Rattle.std.specs.Prelude.{◌≡◌};
ghost use Rattle.processor_execute.specs.Operation.{plain, register_of, immediate_of, long_of};

use processor_arithmetic::{Outcome, bitwise, shift, sum};
use processor_decode::{ImmediateOperation, LongOperation, RegisterOperation};

// A result that leaves PSW as it was.
fn unflagged(value: u32, psw: u32) -> Outcome
    ensures { result ≡ plain value psw }
{
    Outcome { value, psw }
}

// Format I: a is reg2, b is reg1.
pub fn register(op: RegisterOperation, a: u32, b: u32, psw: u32) -> Outcome
    ensures { result ≡ register_of op a b psw }
{
    match op {
        RegisterOperation::Mov => unflagged(b, psw),
        RegisterOperation::Add => sum::add(a, b, psw),
        RegisterOperation::Sub => sum::sub(a, b, psw),
        RegisterOperation::Cmp => sum::cmp(a, b, psw),
        RegisterOperation::Shl => shift::shl(a, b, psw),
        RegisterOperation::Shr => shift::shr(a, b, psw),
        RegisterOperation::Sar => shift::sar(a, b, psw),
        RegisterOperation::Or => bitwise::or(a, b, psw),
        RegisterOperation::And => bitwise::and(a, b, psw),
        RegisterOperation::Xor => bitwise::xor(a, b, psw),
        RegisterOperation::Not => bitwise::not(b, psw),
    }
}

// Format II: a is reg2, b the immediate.
pub fn immediate(op: ImmediateOperation, a: u32, b: u32, psw: u32) -> Outcome
    ensures { result ≡ immediate_of op a b psw }
{
    match op {
        ImmediateOperation::Mov => unflagged(b, psw),
        ImmediateOperation::Add => sum::add(a, b, psw),
        ImmediateOperation::Cmp => sum::cmp(a, b, psw),
        ImmediateOperation::Shl => shift::shl(a, b, psw),
        ImmediateOperation::Shr => shift::shr(a, b, psw),
        ImmediateOperation::Sar => shift::sar(a, b, psw),
    }
}

// Format V: a is reg1, b the immediate, which MOVHI shifts to the upper halfword.
pub fn long(op: LongOperation, a: u32, b: u32, psw: u32) -> Outcome
    ensures { result ≡ long_of op a b psw }
{
    match op {
        LongOperation::Movea => unflagged(a.wrapping_add(b), psw),
        LongOperation::Addi => sum::add(a, b, psw),
        LongOperation::Ori => bitwise::or(a, b, psw),
        LongOperation::Andi => bitwise::and(a, b, psw),
        LongOperation::Xori => bitwise::xor(a, b, psw),
        LongOperation::Movhi => unflagged(a.wrapping_add(b % 65536 * 65536), psw),
    }
}
