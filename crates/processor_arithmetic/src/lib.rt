// What the integer instructions compute: a word's value and the flags that the result leaves in PSW.
// Words are numbers below 2^32; a signed word is read by its sign and magnitude.
// These functions are `pub` for the crates above: internal, not calls of the library.
#![tactic(auto)]

pub mod bitwise;
pub mod condition;
pub mod flag;
pub mod product;
pub mod quotient;
pub mod shift;
pub mod sum;

// A result for reg2, and PSW with its flags.
#[derive(Clone, Copy)]
pub struct Outcome {
    pub value: u32,
    pub psw: u32,
}

// The two results of a multiplication or division, each under its register, and PSW with the flags.
#[derive(Clone, Copy)]
pub struct Pair {
    pub r30: u32,
    pub reg2: u32,
    pub psw: u32,
}
