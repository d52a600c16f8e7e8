// Pak RAM, where each byte's address counts mod its length: an access can be longer than it.
ghost use Rattle.std.specs.Prelude.{◌≡◌, true, List, ℕ, ◌%◌, length};
ghost use Rattle.word.specs.Width.{bytes_of};
ghost use Rattle.bus.specs.Place.{region_of};
ghost use Rattle.bus.specs.Refusal.{pak_ok};
ghost use Rattle.bus.specs.Memory.{memory_of, Reads, store_of};

use crate::map;
use word::Width;

// A byte and a halfword; empty pak RAM reads 0.
fn byte(pak: &[u8], address: u32) -> u32
    requires { (region_of address ≡ 6) × (pak_ok (length pak.now) ≡ true) }
    ensures { (rom wram vram regs : List ℕ) → Reads (memory_of rom wram vram pak.now regs) 1 address result }
{
    if pak.is_empty() {
        return 0;
    }
    word::byte_at(pak, map::wrapped(address, pak.len()))
}

fn half(pak: &[u8], address: u32) -> u32
    requires { (region_of address ≡ 6) × (pak_ok (length pak.now) ≡ true) }
    ensures { (rom wram vram regs : List ℕ) → Reads (memory_of rom wram vram pak.now regs) 2 address result }
{
    let a = address - address % 2;
    byte(pak, a) + 256 * byte(pak, a + 1)
}

// 1, 2 or 4 bytes at an aligned address.
pub fn read(pak: &[u8], width: Width, address: u32) -> u32
    requires { (region_of address ≡ 6) × (pak_ok (length pak.now) ≡ true) × (address % bytes_of width ≡ 0) }
    ensures { (rom wram vram regs : List ℕ) → Reads (memory_of rom wram vram pak.now regs) (bytes_of width) address result }
{
    match width {
        Width::Byte => byte(pak, address),
        Width::Half => half(pak, address),
        Width::Word => half(pak, address) + 65536 * half(pak, address + 2),
    }
}

// A byte and a halfword stored, lowest byte first; empty pak RAM takes nothing.
fn put_byte(pak: &mut [u8], address: u32, value: u32)
    requires { (region_of address ≡ 6) × (pak_ok (length pak.old) ≡ true) }
    ensures { (rom wram vram regs : List ℕ)
        → memory_of rom wram vram pak.new regs
        ≡ store_of (memory_of rom wram vram pak.old regs) 1 address value }
{
    if pak.is_empty() {
        return;
    }
    let i = map::wrapped(address, pak.len());
    pak[i] = (value % 256) as u8;
}

fn put_half(pak: &mut [u8], address: u32, value: u32)
    requires { (region_of address ≡ 6) × (pak_ok (length pak.old) ≡ true) }
    ensures { (rom wram vram regs : List ℕ)
        → memory_of rom wram vram pak.new regs
        ≡ store_of (memory_of rom wram vram pak.old regs) 2 address value }
{
    let a = address - address % 2;
    put_byte(pak, a, value);
    put_byte(pak, a + 1, value / 256);
}

// 1, 2 or 4 bytes stored at an aligned address.
pub fn write(pak: &mut [u8], width: Width, address: u32, value: u32)
    requires { (region_of address ≡ 6) × (pak_ok (length pak.old) ≡ true) × (address % bytes_of width ≡ 0) }
    ensures { (rom wram vram regs : List ℕ)
        → memory_of rom wram vram pak.new regs
        ≡ store_of (memory_of rom wram vram pak.old regs) (bytes_of width) address value }
{
    match width {
        Width::Byte => put_byte(pak, address, value),
        Width::Half => put_half(pak, address, value),
        Width::Word => {
            put_half(pak, address, value);
            put_half(pak, address + 2, value / 65536);
        }
    }
}
