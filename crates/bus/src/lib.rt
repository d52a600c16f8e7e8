// The bus: where an address leads, loads and stores over the caller's memories, the device registers,
// and paper 01's refusals 1 to 5. The functions here are for the crates above; the calls that test
// their arguments and refuse are those of the crate bus_calls.
#![tactic(auto)]

pub mod code;
pub mod device;
pub mod load;
pub mod map;
pub mod memories;
pub mod number;
mod pak;
pub mod refusals;
mod registers;
pub mod store;

// The drawing registers: SPT0 to SPT3, GPLT0 to GPLT3, JPLT0 to JPLT3, BKCOL.
pub type DrawingRegisters = [u16; 13];

// What stands behind bus addresses and is not memory: the drawing registers, then the request lines and the timer's
// count, reload and control bits. It is borrowed as an array: the contracts name it as the list of the
// definitions, and a struct by value costs a run its speed.
pub type Device = [u16; 17];

// Where the lines and the timer stand there.
pub const LINES_PLACE: usize = 13;

pub const COUNT_PLACE: usize = 14;

pub const RELOAD_PLACE: usize = 15;

pub const CONTROL_PLACE: usize = 16;

#[derive(Clone, Copy)]
pub struct Drawing {
    pub regs: DrawingRegisters,
}

// Where an address leads: a byte of WRAM or of VRAM, an address of ROM or of pak RAM, which repeat, an address of the
// VIP's registers, an offset in region 2, or nothing.
#[derive(Clone, Copy)]
pub enum Place {
    Wram(usize),
    Vram(usize),
    Rom(u32),
    Pak(u32),
    Register(u32),
    Port(u32),
    Nothing,
}
