// Loads of 1, 2 or 4 bytes from memories whose lengths are accepted: what the processor uses after one test.
ghost use Rattle.std.specs.Prelude.{◌≡◌, List, ℕ, true, length};
ghost use Rattle.word.specs.Width.{bytes_of};
ghost use Rattle.bus.specs.Refusal.{rom_ok, pak_ok, vram_bytes};
ghost use Rattle.bus.specs.Memory.{memory_of, Lengths, Reads, aligned_of};
ghost use Rattle.bus.specs.Lent.{entering};
ghost use Rattle.bus.specs.inner.Finds.{Finds};
ghost use Rattle.bus.specs.inner.LeadsTo.{Outside};

use crate::{Device, Place, map, number, pak, registers};
use word::Width;

// The fast path: it needs neither pak RAM nor the device registers.
#[inline(always)]
pub fn direct(rom: &[u8], wram: &[u8], vram: &[u8], width: Width, address: u32) -> Option<u32>
    requires { (rom_ok (length rom.now) ≡ true) × (length wram.now ≡ 65536) × (length vram.now ≡ vram_bytes) }
    ensures { (pak regs : List ℕ)
        → Finds (memory_of rom.now wram.now vram.now pak regs) (bytes_of width) address result }
{
    match map::place_of(map::aligned(width, address)) {
        Place::Wram(i) => Some(number::number_at(wram, width, i)),
        Place::Vram(i) => Some(number::number_at(vram, width, i)),
        Place::Rom(a) => Some(number::number_at(rom, width, map::wrapped(a, rom.len()))),
        _ => None,
    }
}

// What stands in none of ROM, WRAM and VRAM. It stands apart from the fast path: inside `load` it would be too long to be
// inlined there (docs/DECISIONS.md).
#[inline(never)]
pub fn elsewhere(pak: &[u8], regs: &Device, width: Width, address: u32) -> u32
    requires { (pak_ok (length pak.now) ≡ true) × Outside (aligned_of (bytes_of width) address) }
    ensures { (rom wram vram : List ℕ)
        → Reads (memory_of rom wram vram pak.now regs.now) (bytes_of width) address result }
{
    match map::place_of(map::aligned(width, address)) {
        Place::Pak(a) => pak::read(pak, width, a),
        Place::Register(v) => registers::read(regs, width, v),
        Place::Port(o) => registers::port(regs, o),
        _ => 0,
    }
}

// A load of one width.
pub fn load(
    rom: &[u8],
    wram: &[u8],
    vram: &[u8],
    pak: &[u8],
    regs: &Device,
    width: Width,
    address: u32,
) -> u32
    requires { Lengths (length rom.now) (length wram.now) (length vram.now) (length pak.now) }
    ensures { Reads (entering rom.now wram.now vram.now pak.now regs.now) (bytes_of width) address result }
{
    match direct(rom, wram, vram, width, address) {
        Some(value) => value,
        None => elsewhere(pak, regs, width, address),
    }
}
