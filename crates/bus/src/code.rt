// Code that stands in ROM or WRAM: which stretch of addresses around PC leads to that memory byte by byte, and the
// halfwords there by their index in it.
ghost use Rattle.std.specs.Prelude.{◌≡◌, true, List, ℕ, ◌+◌, ◌/◌, ◌%◌, ◌<◌, length};
ghost use Rattle.word.specs.Choose.{pick};
ghost use Rattle.word.specs.LittleEndian.{half_at};
ghost use Rattle.bus.specs.Refusal.{rom_ok};
ghost use Rattle.bus.specs.Memory.{memory_of};
ghost use Rattle.bus.specs.inner.Code.{Standing, Stands, Halves};

use crate::Place;
use crate::map::place_of;

// From the address `base` on: both halfwords at an index below `last` are inside.
#[derive(Clone, Copy)]
pub enum Code {
    Rom { base: u32, last: u32 },
    Wram { base: u32, last: u32 },
    Elsewhere,
}

pub fn code_at(rom: usize, pc: u32) -> Code
    requires { rom_ok rom ≡ true }
    ensures { Standing rom result }
{
    match place_of(pc) {
        Place::Rom(_) => {
            let n = rom as u32;
            Code::Rom {
                base: pc - pc % n,
                last: n - 3,
            }
        }
        Place::Wram(_) => Code::Wram {
            base: pc - pc % 65536,
            last: 65533,
        },
        _ => Code::Elsewhere,
    }
}

// Both halfwords at index x in one word.
fn halves(code: &[u8], x: usize) -> u32
    requires { x + 3 < length code.now }
    ensures { (result % 65536 ≡ half_at code.now x) × (result / 65536 ≡ half_at code.now (x + 2)) }
{
    let a = word::half_at(code, x);
    let b = word::half_at(code, x + 2);
    a + 65536 * b
}

pub fn fetch(rom: &[u8], wram: &[u8], in_rom: bool, x: usize) -> u32
    requires { (rom_ok (length rom.now) ≡ true) × (x + 3 < pick in_rom (length rom.now) (length wram.now)) }
    ensures { (vram pak regs : List ℕ) (base last : ℕ)
        → Stands (length rom.now) in_rom base last → x % 2 ≡ 0 → x < last
        → Halves (memory_of rom.now wram.now vram pak regs) base x result }
{
    if in_rom {
        return halves(rom, x);
    }
    halves(wram, x)
}
