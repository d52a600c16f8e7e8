// The bus's public calls: each tests refusals 1 to 5 and then loads or stores. They take the drawing registers and the
// request lines with the timer by value, and a store gives both back. Only accesses that the bus's fast path does not
// answer borrow a copy of them as device registers. The width is known where a call stands, so each is compiled there: with
// a test of the width in it a call of the C interface took half as many machine instructions again (docs/DECISIONS.md).
#![tactic(auto)]

ghost use Rattle.std.specs.Prelude.{◌≡◌, true, List, ℕ, length};
ghost use Rattle.word.specs.Width.{bytes_of};
ghost use Rattle.bus.specs.Refusal.{vram_bytes, pak_ok};
ghost use Rattle.bus.specs.Memory.{memory_of, verdict_of, store_of, Lengths, Reads};
ghost use Rattle.bus.specs.Lent.{entering_with, leaving_with};
ghost use Rattle.bus.specs.TimerLines.{device_of};
ghost use Rattle.bus_calls.specs.Access.{checked_load_of, checked_store_of, verdict_in, left_by};

use bus::{Drawing, device, refusals};
use bus_timer::TimerLines;
use refusal::Refusal;
use word::Width;

// What a load read: its value, and bit k of `undefined` set where byte k, counted from the aligned address, is
// undefined.
#[derive(Clone, Copy)]
pub struct Reading {
    pub value: u32,
    pub undefined: u32,
}

// What an accepted store leaves beside the memories: the drawing registers, the request lines and the timer.
#[derive(Clone, Copy)]
pub struct Stored {
    pub drawing: Drawing,
    pub hardware: TimerLines,
}

// What the bytes of a width hold, in memories whose lengths are accepted.
#[inline(always)]
fn read(
    rom: &[u8],
    wram: &[u8],
    vram: &[u8],
    pak: &[u8],
    drawing: Drawing,
    hardware: TimerLines,
    width: Width,
    address: u32,
) -> u32
    requires { Lengths (length rom.now) (length wram.now) (length vram.now) (length pak.now) }
    ensures { Reads (entering_with rom.now wram.now vram.now pak.now (device_of drawing.regs hardware)) (bytes_of width) address result }
{
    match bus::load::direct(rom, wram, vram, width, address) {
        Some(value) => value,
        None => {
            let lent = device::device_of(drawing.regs, hardware);
            bus::load::elsewhere(pak, &lent, width, address)
        }
    }
}

// Stores the bytes of a width there.
#[inline(always)]
fn write(
    wram: &mut [u8],
    vram: &mut [u8],
    pak: &mut [u8],
    drawing: Drawing,
    hardware: TimerLines,
    width: Width,
    address: u32,
    value: u32,
) -> Stored
    requires { (length wram.old ≡ 65536) × (length vram.old ≡ vram_bytes) × (pak_ok (length pak.old) ≡ true) }
    ensures { (rom : List ℕ)
        → memory_of rom wram.new vram.new pak.new
        (device_of result.drawing.regs result.hardware)
        ≡ store_of (memory_of rom wram.old vram.old pak.old
        (device_of drawing.regs hardware)) (bytes_of width) address value }
{
    if bus::store::direct(wram, vram, width, address, value) {
        return Stored { drawing, hardware };
    }
    let mut lent = device::device_of(drawing.regs, hardware);
    bus::store::elsewhere(pak, &mut lent, width, address, value);
    let regs = device::drawing_in(&lent);
    Stored {
        drawing: Drawing { regs },
        hardware: device::hardware_in(&lent),
    }
}

// Loads a value of a width.
#[tactic(auto, unfolding(crate::specs::Access::checked_load_of))]
#[inline(always)]
pub fn load(
    rom: &[u8],
    wram: &[u8],
    vram: &[u8],
    pak: &[u8],
    drawing: Drawing,
    hardware: TimerLines,
    width: Width,
    address: u32,
) -> Result<Reading, Refusal>
    ensures { result ≡ checked_load_of (entering_with rom.now wram.now vram.now pak.now (device_of drawing.regs hardware)) (bytes_of width) address }
{
    refusals::call_verdict(
        rom.len(),
        wram.len(),
        vram.len(),
        pak.len(),
        &drawing.regs,
        hardware,
    )?;
    let undefined = bus_defined::undefined(width, address);
    let value = read(rom, wram, vram, pak, drawing, hardware, width, address);
    Ok(Reading { value, undefined })
}

// Stores a value of a width; `value` is the whole source register.
#[tactic(auto, unfolding(crate::specs::Access::checked_store_of))]
#[inline(always)]
pub fn store(
    rom: &[u8],
    wram: &mut [u8],
    vram: &mut [u8],
    pak: &mut [u8],
    drawing: Drawing,
    hardware: TimerLines,
    width: Width,
    address: u32,
    value: u32,
) -> Result<Stored, Refusal>
    ensures verdict { verdict_in result ≡ verdict_of (entering_with rom.now wram.old vram.old pak.old (device_of drawing.regs hardware)) }
    ensures memory { let m = entering_with rom.now wram.old vram.old pak.old (device_of drawing.regs hardware) in
        let after = left_by drawing hardware result in
        leaving_with rom.now wram.new vram.new pak.new (device_of after.drawing.regs after.hardware)
        ≡ checked_store_of m (store_of m (bytes_of width) address value) }
{
    refusals::call_verdict(
        rom.len(),
        wram.len(),
        vram.len(),
        pak.len(),
        &drawing.regs,
        hardware,
    )?;
    Ok(write(wram, vram, pak, drawing, hardware, width, address, value))
}
