// Stores of 1, 2 or 4 bytes into memories whose lengths are accepted: what the processor uses after one test. `value`
// is the whole source register: a byte store writes its low 16 bits to a VIP register.
ghost use Rattle.std.specs.Prelude.{◌≡◌, true, List, ℕ, length};
ghost use Rattle.word.specs.Width.{bytes_of};
ghost use Rattle.bus.specs.Refusal.{pak_ok, vram_bytes};
ghost use Rattle.bus.specs.Memory.{memory_of, Lengths, store_of, aligned_of};
ghost use Rattle.bus.specs.Lent.{entering, leaving};
ghost use Rattle.bus.specs.inner.LeadsTo.{OutsideRam};
ghost use Rattle.bus.specs.inner.Finds.{Stores};

use crate::{Device, Place, map, number, pak, registers};
use word::Width;

// The fast path: whether it was stored in WRAM or VRAM; nothing changes where it was not.
#[inline(always)]
pub fn direct(wram: &mut [u8], vram: &mut [u8], width: Width, address: u32, value: u32) -> bool
    requires { (length wram.old ≡ 65536) × (length vram.old ≡ vram_bytes) }
    ensures { (rom pak regs : List ℕ)
        → Stores (memory_of rom wram.old vram.old pak regs) (bytes_of width) address value result
        (memory_of rom wram.new vram.new pak regs) }
{
    match map::place_of(map::aligned(width, address)) {
        Place::Wram(i) => {
            number::put_number(wram, width, i, value);
            true
        }
        Place::Vram(i) => {
            number::put_number(vram, width, i, value);
            true
        }
        _ => false,
    }
}

// What goes to neither WRAM nor VRAM. It stands apart from the fast path.
pub fn elsewhere(pak: &mut [u8], regs: &mut Device, width: Width, address: u32, value: u32)
    requires { (pak_ok (length pak.old) ≡ true) × OutsideRam (aligned_of (bytes_of width) address) }
    ensures { (rom wram vram : List ℕ)
        → memory_of rom wram vram pak.new regs.new
        ≡ store_of (memory_of rom wram vram pak.old regs.old) (bytes_of width) address value }
{
    match map::place_of(map::aligned(width, address)) {
        Place::Pak(a) => pak::write(pak, width, a, value),
        Place::Register(v) => registers::write(regs, width, v, value),
        Place::Port(o) => registers::put_port(regs, o, value),
        _ => {}
    }
}

// A store of one width; it needs one test of the lengths.
pub fn store(
    rom: &[u8],
    wram: &mut [u8],
    vram: &mut [u8],
    pak: &mut [u8],
    regs: &mut Device,
    width: Width,
    address: u32,
    value: u32,
)
    requires { Lengths (length rom.now) (length wram.old) (length vram.old) (length pak.old) }
    ensures { leaving rom.now wram.new vram.new pak.new regs.new ≡ store_of (entering rom.now wram.old vram.old pak.old regs.old) (bytes_of width) address value }
{
    if !direct(wram, vram, width, address, value) {
        elsewhere(pak, regs, width, address, value);
    }
}
