// The fast path: a stretch of common instructions from ROM or WRAM, which a run does between steps. It does not change
// the mode, pak RAM or the device registers. If no interrupt is accepted before it, none is accepted after it. The
// functions here are for the crate processor, which tests the arguments of its calls.
#![tactic(auto)]

mod dispatch;
pub mod stretch;
mod system;

// What a stretch leaves besides the borrowed registers and memories: how many instructions ended, PC and PSW.
#[derive(Clone, Copy)]
pub struct Progress {
    pub count: u64,
    pub pc: u32,
    pub psw: u32,
}

// What the common instructions leave of a budget, PC and PSW.
#[derive(Clone, Copy)]
pub struct Rest {
    pub left: u64,
    pub pc: u32,
    pub psw: u32,
}

// Index x of code that stands from the address `base` on.
#[derive(Clone, Copy)]
pub struct Cursor {
    pub base: u32,
    pub x: u32,
}

// The halfword there, and the word that it and the next halfword make. An instruction of one halfword ignores the next.
#[derive(Clone, Copy)]
pub struct Fetched {
    pub first: u32,
    pub word: u32,
}
