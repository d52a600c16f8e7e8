// The VIP's registers by their address there, and the timer's by their offset in region 2.
ghost use Rattle.std.specs.Prelude.{◌≡◌, List, ℕ, ◌<◌, ◌≤◌, ◌%◌, MatchOption};
ghost use Rattle.word.specs.Choose.{index_of};
ghost use Rattle.word.specs.Width.{bytes_of};
ghost use Rattle.bus_timer.specs.Ports.{port_byte_of, port_written_of};
ghost use Rattle.bus.specs.Registers.{drawing_addresses};
ghost use Rattle.bus.specs.TimerLines.{hardware_in, with_hardware};
ghost use Rattle.bus.specs.Memory.{memory_of, Reads, put_register, store_of};
ghost use Rattle.bus.specs.inner.LeadsTo.{Between};

use crate::{Device, DrawingRegisters, device};
use word::Width;

// The first value that is too wide for each drawing register.
pub const LIMITS: DrawingRegisters = [
    1024, 1024, 1024, 1024, 256, 256, 256, 256, 256, 256, 256, 256, 4,
];

// Which drawing register stands at an even address h of the VIP, if one does.
fn index(h: u32) -> Option<usize>
    requires { h % 2 ≡ 0 }
    ensures { MatchOption result (13 ≤ index_of h drawing_addresses) (λ k. (k ≡ index_of h drawing_addresses) × (k < 13)) }
{
    match h {
        0x5F848..=0x5F84E => Some(((h - 0x5F848) / 2) as usize),
        0x5F860..=0x5F870 => Some(((h - 0x5F860) / 2 + 4) as usize),
        _ => None,
    }
}

// The halfword at an even address: a drawing register, VER, or 0.
fn half(regs: &Device, v: u32) -> u32
    requires { Between v × (v % 2 ≡ 0) }
    ensures { (rom wram vram pak : List ℕ) → Reads (memory_of rom wram vram pak regs.now) 2 v result }
{
    match index(v) {
        Some(k) => u32::from(regs[k]),
        None if v == 0x5F844 => 2,
        None => 0,
    }
}

// 1, 2 or 4 bytes at an aligned address.
pub fn read(regs: &Device, width: Width, v: u32) -> u32
    requires { Between v × (v % bytes_of width ≡ 0) }
    ensures { (rom wram vram pak : List ℕ) → Reads (memory_of rom wram vram pak regs.now) (bytes_of width) v result }
{
    let low = half(regs, v - v % 2);
    let high = half(regs, v - v % 4 + 2);
    match width {
        Width::Byte if v % 2 == 0 => low % 256,
        Width::Byte => low / 256,
        Width::Half => low,
        Width::Word => low + 65536 * high,
    }
}

// A value modulo a limit. Each limit stands here as a number, so that it is a mask and no division.
fn below(value: u32, limit: u16) -> u32
    requires { 0 < limit }
    ensures { (result ≡ value % limit) × (result < limit) }
{
    match limit {
        1024 => value % 1024,
        256 => value % 256,
        4 => value % 4,
        _ => value % u32::from(limit),
    }
}

// The low 16 bits of a value written to the register that holds an address, where there is one.
fn put_half(regs: &mut Device, v: u32, value: u32)
    requires { Between v }
    ensures { (rom wram vram pak : List ℕ)
        → memory_of rom wram vram pak regs.new
        ≡ put_register (memory_of rom wram vram pak regs.old) v value }
{
    if let Some(k) = index(v - v % 2) {
        regs[k] = below(value, LIMITS[k]) as u16;
    }
}

// 1, 2 or 4 bytes written at an aligned address.
pub fn write(regs: &mut Device, width: Width, v: u32, value: u32)
    requires { Between v × (v % bytes_of width ≡ 0) }
    ensures { (rom wram vram pak : List ℕ)
        → memory_of rom wram vram pak regs.new
        ≡ store_of (memory_of rom wram vram pak regs.old) (bytes_of width) v value }
{
    put_half(regs, v, value);
    if width == Width::Word {
        put_half(regs, v + 2, value / 65536);
    }
}

// The byte at an offset of region 2. The timer's registers are bytes at multiples of four, so that an access of any
// size is that of its first byte.
pub fn port(regs: &Device, offset: u32) -> u32
    ensures { (result ≡ port_byte_of (hardware_in regs.now) offset) × (result < 256) }
{
    device::hardware_in(regs).port(offset)
}

pub fn put_port(regs: &mut Device, offset: u32, value: u32)
    ensures { regs.new
        ≡ with_hardware regs.old (port_written_of (hardware_in regs.old) offset (value % 256)) }
{
    let before = device::hardware_in(regs);
    device::put_hardware(regs, before.put_port(offset, value));
}
