// ADDF.S, SUBF.S, MULF.S and DIVF.S on words. The tests come in the order of 000's priorities: reserved operand,
// invalid, zero divide, overflow.
ghost use Rattle.std.specs.Prelude.{◌≡◌, to_bits};
ghost use Rattle.std.specs.Float.{binary32};
ghost use Rattle.processor_float.specs.Operand.{reserved_of, is_zero};
ghost use Rattle.processor_float.specs.Arithmetic.{computed_of, is_divide, vanishes_of, settled_of, outcome_of};

use crate::{FloatOutcome, Operation};

// Whether a word is a reserved operand: an infinity, a NaN or a subnormal that is not zero.
pub fn reserved(w: u32) -> bool
    ensures { result ≡ reserved_of w }
{
    !matches!(w % 2147483648, 0 | 0x800000..=0x7F7FFFFF)
}

// A zero of either sign.
fn zero(w: u32) -> bool
    ensures { result ≡ is_zero w }
{
    w % 2147483648 == 0
}

fn divides(op: Operation) -> bool
    ensures { result ≡ is_divide op }
{
    op == Operation::Divide
}

// The operation itself, rounded once.
fn compute(op: Operation, a: f32, b: f32) -> f32
    ensures { result ≡ computed_of op a b }
{
    match op {
        Operation::Add => a + b,
        Operation::Subtract => a - b,
        Operation::Multiply => a * b,
        Operation::Divide => a / b,
    }
}

// Whether the exact result is zero: a result can also round to zero.
fn vanishes(op: Operation, x: u32, y: u32, a: f32, b: f32) -> bool
    ensures { result ≡ vanishes_of op x y a b }
{
    match op {
        Operation::Add => a == -b,
        Operation::Subtract => a == b,
        Operation::Multiply => zero(x) || zero(y),
        Operation::Divide => zero(x),
    }
}

// What a rounded result comes to. The least normal number is 2^-126; a zero has its sign already.
fn settle(v: f32, exact: bool) -> FloatOutcome
    ensures { result ≡ settled_of exact v }
{
    if v == f32::INFINITY || v == f32::NEG_INFINITY {
        return FloatOutcome::Overflow;
    }
    if 0.0 < v && v < f32::MIN_POSITIVE {
        return FloatOutcome::Number(0.0, !exact);
    }
    if v < 0.0 && -f32::MIN_POSITIVE < v {
        return FloatOutcome::Number(-0.0, !exact);
    }
    if v == 0.0 {
        return FloatOutcome::Number(v, !exact);
    }
    FloatOutcome::Number(v, false)
}

// reg2 `op` reg1: x is reg2 and y is reg1.
pub fn operate(op: Operation, x: u32, y: u32) -> FloatOutcome
    ensures { result ≡ outcome_of op x y }
{
    if reserved(x) || reserved(y) {
        return FloatOutcome::Reserved;
    }
    if divides(op) && zero(y) {
        if zero(x) {
            return FloatOutcome::Invalid;
        }
        return FloatOutcome::ZeroDivide;
    }
    let a = f32::from_bits(x);
    let b = f32::from_bits(y);
    let exact = vanishes(op, x, y, a, b);
    settle(compute(op, a, b), exact)
}

// The word of a number. No outcome carries a NaN; the test is what the language asks for.
pub fn word_of(v: f32) -> u32
    ensures { result ≡ to_bits binary32 v }
{
    if v.is_nan() { 0x7FC00000 } else { v.to_bits() }
}
