// Lazy flags: what the flags of a result are made of. PSW gets them only where it is asked for. The functions here are
// `pub` for the crates above: internal, not calls of the library.
#![tactic(auto)]

pub mod bitwise;
pub mod condition;
pub mod order;
pub mod product;
pub mod quotient;
pub mod shift;
pub mod status;
pub mod sum;

// S and Z are those of `value`. CY and OV are those of an addition of two words: the high word of `addition` is its
// wrapped sum, the low word one of its parts. They are computed only where they are asked for.
#[derive(Clone, Copy)]
pub struct Flags {
    pub addition: u64,
    pub value: u32,
}

// The two results of a multiplication or division: the one for r30, and the one for reg2 as the flags have it.
#[derive(Clone, Copy)]
pub struct Pair {
    pub r30: u32,
    pub flags: Flags,
}
