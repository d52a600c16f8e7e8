// The instructions that compute: Register Transfer, Arithmetic, Bitwise, SETF. Each says what it does by its own case
// of execute_of, for every value of what it does not touch.
#![tactic(auto, unfolding(crate::specs::Execute::execute_of))]

ghost use Rattle.std.specs.Prelude.{◌≡◌, ℕ, List};
ghost use Rattle.bus.specs.Memory.{Memory};
ghost use Rattle.processor_machine.specs.State.{state_of, leaves, ended_at, put_of};
ghost use Rattle.processor_execute.specs.Execute.{execute_of};

use crate::operation;
use processor_arithmetic::{Outcome, Pair, condition, product, quotient};
use processor_decode::{ImmediateOperation, Instruction, LongOperation, RegisterOperation};
use processor_machine::exception::raise;
use processor_machine::register::{get, put};
use processor_machine::{Cause, Control, Mode};

// A result for register n, with its flags.
fn result(regs: &mut [u32; 32], n: u32, o: Outcome, next: u32) -> Control
    ensures { (regs.new ≡ put_of regs.old n o.value) × (result ≡ ended_at next o.psw) }
{
    put(regs, n, o.value);
    Control::ended(next, o.psw)
}

// Two results: r30's first, so that register n's wins where that is r30.
fn pair(regs: &mut [u32; 32], n: u32, p: Pair, next: u32) -> Control
    ensures { (regs.new ≡ put_of (put_of regs.old 30 p.r30) n p.reg2) × (result ≡ ended_at next p.psw) }
{
    put(regs, 30, p.r30);
    put(regs, n, p.reg2);
    Control::ended(next, p.psw)
}

pub fn register(
    regs: &mut [u32; 32],
    op: RegisterOperation,
    reg1: u32,
    reg2: u32,
    next: u32,
    psw: u32,
) -> Control
    ensures { (pc : ℕ) (sys : List ℕ) (m : Memory)
        → leaves regs.new sys result m
        ≡ execute_of (Instruction.Register op reg1 reg2) next (state_of regs.old sys pc psw Mode.Running) m }
{
    let o = operation::register(op, get(regs, reg2), get(regs, reg1), psw);
    result(regs, reg2, o, next)
}

pub fn immediate(
    regs: &mut [u32; 32],
    op: ImmediateOperation,
    imm: u32,
    reg2: u32,
    next: u32,
    psw: u32,
) -> Control
    ensures { (pc : ℕ) (sys : List ℕ) (m : Memory)
        → leaves regs.new sys result m
        ≡ execute_of (Instruction.Immediate op imm reg2) next (state_of regs.old sys pc psw Mode.Running) m }
{
    let o = operation::immediate(op, get(regs, reg2), imm, psw);
    result(regs, reg2, o, next)
}

pub fn long(
    regs: &mut [u32; 32],
    op: LongOperation,
    imm: u32,
    reg1: u32,
    reg2: u32,
    next: u32,
    psw: u32,
) -> Control
    ensures { (pc : ℕ) (sys : List ℕ) (m : Memory)
        → leaves regs.new sys result m
        ≡ execute_of (Instruction.Long op imm reg1 reg2) next (state_of regs.old sys pc psw Mode.Running) m }
{
    let o = operation::long(op, get(regs, reg1), imm, psw);
    result(regs, reg2, o, next)
}

pub fn mul(regs: &mut [u32; 32], reg1: u32, reg2: u32, next: u32, psw: u32) -> Control
    ensures { (pc : ℕ) (sys : List ℕ) (m : Memory)
        → leaves regs.new sys result m
        ≡ execute_of (Instruction.Mul reg1 reg2) next (state_of regs.old sys pc psw Mode.Running) m }
{
    let p = product::mul(get(regs, reg2), get(regs, reg1), psw);
    pair(regs, reg2, p, next)
}

pub fn mulu(regs: &mut [u32; 32], reg1: u32, reg2: u32, next: u32, psw: u32) -> Control
    ensures { (pc : ℕ) (sys : List ℕ) (m : Memory)
        → leaves regs.new sys result m
        ≡ execute_of (Instruction.Mulu reg1 reg2) next (state_of regs.old sys pc psw Mode.Running) m }
{
    let p = product::mulu(get(regs, reg2), get(regs, reg1), psw);
    pair(regs, reg2, p, next)
}

pub fn div(
    regs: &mut [u32; 32],
    sys: &mut [u32; 8],
    reg1: u32,
    reg2: u32,
    pc: u32,
    next: u32,
    psw: u32,
) -> Control
    ensures { (m : Memory)
        → leaves regs.new sys.new result m
        ≡ execute_of (Instruction.Div reg1 reg2) next
        (state_of regs.old sys.old pc psw Mode.Running) m }
{
    let b = get(regs, reg1);
    if b == 0 {
        return raise(sys, Cause::ZeroDivision, pc, next, psw);
    }
    let p = quotient::div(get(regs, reg2), b, psw);
    pair(regs, reg2, p, next)
}

pub fn divu(
    regs: &mut [u32; 32],
    sys: &mut [u32; 8],
    reg1: u32,
    reg2: u32,
    pc: u32,
    next: u32,
    psw: u32,
) -> Control
    ensures { (m : Memory)
        → leaves regs.new sys.new result m
        ≡ execute_of (Instruction.Divu reg1 reg2) next
        (state_of regs.old sys.old pc psw Mode.Running) m }
{
    let b = get(regs, reg1);
    if b == 0 {
        return raise(sys, Cause::ZeroDivision, pc, next, psw);
    }
    let p = quotient::divu(get(regs, reg2), b, psw);
    pair(regs, reg2, p, next)
}

pub fn setf(regs: &mut [u32; 32], cond: u32, reg2: u32, next: u32, psw: u32) -> Control
    ensures { (pc : ℕ) (sys : List ℕ) (m : Memory)
        → leaves regs.new sys result m
        ≡ execute_of (Instruction.Setf cond reg2) next (state_of regs.old sys pc psw Mode.Running) m }
{
    put(regs, reg2, u32::from(condition::holds(cond, psw)));
    Control::ended(next, psw)
}
