// The instructions of 000's groups "Floating-Point" and "Nintendo". Each says what it does by its own case of
// execute_of, for every value of what it does not touch. A trap leaves the general registers as they were.
#![tactic(auto, unfolding(crate::specs::Execute::execute_of))]

ghost use Rattle.std.specs.Prelude.{◌≡◌, ℕ, List};
ghost use Rattle.bus.specs.Memory.{Memory};
ghost use Rattle.processor_machine.specs.State.{state_of, leaves};
ghost use Rattle.processor_execute.specs.Floating.{floating_of, settles_of, compares_of, nintendo_of};
ghost use Rattle.processor_execute.specs.Execute.{execute_of};

use processor_decode::Instruction;
use processor_decode::sub_opcode::{FloatingOperation, NintendoOperation};
use processor_float::{
    Compared, FloatOutcome, Operation, arithmetic, comparison, conversion, flag, nintendo,
};
use processor_machine::exception::raise;
use processor_machine::floating::FloatCause;
use processor_machine::register::{get, put};
use processor_machine::{Cause, Control, Mode};

// What an operation comes to: a is reg2 and b is reg1.
fn outcome(op: FloatingOperation, a: u32, b: u32) -> FloatOutcome
    ensures { result ≡ floating_of op a b }
{
    match op {
        FloatingOperation::CvtWs => FloatOutcome::Number(conversion::float_of(b), false),
        FloatingOperation::CvtSw => conversion::nearest(b),
        FloatingOperation::Addf => arithmetic::operate(Operation::Add, a, b),
        FloatingOperation::Subf => arithmetic::operate(Operation::Subtract, a, b),
        FloatingOperation::Mulf => arithmetic::operate(Operation::Multiply, a, b),
        FloatingOperation::Divf => arithmetic::operate(Operation::Divide, a, b),
        FloatingOperation::TrncSw => conversion::truncated(b),
    }
}

// A number goes to register n as its word, with its flags.
fn number(regs: &mut [u32; 32], n: u32, v: f32, underflowed: bool, next: u32, psw: u32) -> Control
    ensures { (pc : ℕ) (sys : List ℕ) (m : Memory)
        → leaves regs.new sys result m
        ≡ settles_of n (FloatOutcome.Number v underflowed) next (state_of regs.old sys pc psw Mode.Running) m }
{
    let w = arithmetic::word_of(v);
    put(regs, n, w);
    Control::ended(next, flag::number_flags(psw, w, underflowed))
}

// A whole number goes to register n, with its flags.
fn whole(regs: &mut [u32; 32], n: u32, w: u32, next: u32, psw: u32) -> Control
    ensures { (pc : ℕ) (sys : List ℕ) (m : Memory)
        → leaves regs.new sys result m
        ≡ settles_of n (FloatOutcome.Word w) next (state_of regs.old sys pc psw Mode.Running) m }
{
    put(regs, n, w);
    Control::ended(next, flag::conversion_flags(psw, w))
}

// What an outcome leaves.
fn settle(
    regs: &mut [u32; 32],
    sys: &mut [u32; 8],
    n: u32,
    o: FloatOutcome,
    pc: u32,
    next: u32,
    psw: u32,
) -> Control
    ensures { (m : Memory)
        → leaves regs.new sys.new result m
        ≡ settles_of n o next (state_of regs.old sys.old pc psw Mode.Running) m }
{
    match o {
        FloatOutcome::Number(v, underflowed) => number(regs, n, v, underflowed, next, psw),
        FloatOutcome::Word(w) => whole(regs, n, w, next, psw),
        FloatOutcome::Reserved => raise(sys, Cause::Float(FloatCause::Reserved), pc, next, psw),
        FloatOutcome::Invalid => raise(sys, Cause::Float(FloatCause::Invalid), pc, next, psw),
        FloatOutcome::ZeroDivide => raise(sys, Cause::Float(FloatCause::ZeroDivide), pc, next, psw),
        FloatOutcome::Overflow => raise(sys, Cause::Float(FloatCause::Overflow), pc, next, psw),
    }
}

pub fn floating(
    regs: &mut [u32; 32],
    sys: &mut [u32; 8],
    op: FloatingOperation,
    reg1: u32,
    reg2: u32,
    pc: u32,
    next: u32,
    psw: u32,
) -> Control
    ensures { (m : Memory)
        → leaves regs.new sys.new result m
        ≡ execute_of (Instruction.Floating op reg1 reg2) next
        (state_of regs.old sys.old pc psw Mode.Running) m }
{
    let o = outcome(op, get(regs, reg2), get(regs, reg1));
    settle(regs, sys, reg2, o, pc, next, psw)
}

// What a comparison leaves.
fn compares(sys: &mut [u32; 8], c: Compared, pc: u32, next: u32, psw: u32) -> Control
    ensures { (regs : List ℕ) (m : Memory)
        → leaves regs sys.new result m ≡ compares_of c next (state_of regs sys.old pc psw Mode.Running) m }
{
    match c {
        Compared::Reserved => raise(sys, Cause::Float(FloatCause::Reserved), pc, next, psw),
        _ => Control::ended(next, flag::comparison_flags(psw, c)),
    }
}

pub fn cmpf(
    regs: &[u32; 32],
    sys: &mut [u32; 8],
    reg1: u32,
    reg2: u32,
    pc: u32,
    next: u32,
    psw: u32,
) -> Control
    ensures { (m : Memory)
        → leaves regs.now sys.new result m
        ≡ execute_of (Instruction.Cmpf reg1 reg2) next
        (state_of regs.now sys.old pc psw Mode.Running) m }
{
    let c = comparison::compare(get(regs, reg2), get(regs, reg1));
    compares(sys, c, pc, next, psw)
}

// What XB, XH, REV and MPYHW give: a is reg2 and b is reg1.
fn rearranged(op: NintendoOperation, a: u32, b: u32) -> u32
    ensures { result ≡ nintendo_of op a b }
{
    match op {
        NintendoOperation::Xb => nintendo::xb(a),
        NintendoOperation::Xh => nintendo::xh(a),
        NintendoOperation::Rev => nintendo::rev(b),
        NintendoOperation::Mpyhw => nintendo::mpyhw(a, b),
    }
}

pub fn nintendo(
    regs: &mut [u32; 32],
    op: NintendoOperation,
    reg1: u32,
    reg2: u32,
    next: u32,
    psw: u32,
) -> Control
    ensures { (pc : ℕ) (sys : List ℕ) (m : Memory)
        → leaves regs.new sys result m
        ≡ execute_of (Instruction.Nintendo op reg1 reg2) next (state_of regs.old sys pc psw Mode.Running) m }
{
    let v = rearranged(op, get(regs, reg2), get(regs, reg1));
    put(regs, reg2, v);
    Control::ended(next, psw)
}
