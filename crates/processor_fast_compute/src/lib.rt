// The common instructions that compute, for the fast path (crate processor_fast), and the fields of an instruction. The
// functions here are for the fast path's crates alone.
#![tactic(auto)]

pub mod arithmetic;
pub mod field;
pub mod floating;

// What the dispatch did. Done: the instruction; the next one is at index x, with these flags. Masked: SEI or CLI; the
// next one follows, with this PSW above its flags. NotHere: nothing; the step does the instruction.
#[derive(Clone, Copy)]
pub enum Fast {
    Done { x: u32, addition: u64, value: u32 },
    Masked { psw: u32 },
    NotHere,
}
