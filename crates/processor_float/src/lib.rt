// What the floating-point and Nintendo instructions compute: words that stand for IEEE 754 single floats, each result
// rounded once, to nearest, ties to even; the flags that a result leaves in PSW; and four rearrangements of words.
// These functions are `pub` for the crates above: internal, not calls of the library.
#![tactic(auto)]

pub mod arithmetic;
pub mod comparison;
pub mod conversion;
pub mod flag;
pub mod nintendo;

// The four operations on two numbers.
#[derive(Clone, Copy, Debug, PartialEq, Eq)]
pub enum Operation {
    Add,
    Subtract,
    Multiply,
    Divide,
}

// What a floating instruction comes to: a number, with whether it underflowed; a word, of a conversion to a whole
// number; or the trap that it raises.
#[derive(Clone, Copy)]
pub enum FloatOutcome {
    Number(f32, bool),
    Word(u32),
    Reserved,
    Invalid,
    ZeroDivide,
    Overflow,
}

// How two operands compare, or that one is reserved.
#[derive(Clone, Copy)]
pub enum Compared {
    Lower,
    Equal,
    Higher,
    Reserved,
}
