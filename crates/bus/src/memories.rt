// The caller's memories and the device registers, lent together behind refusals 1 to 4.
ghost use Rattle.std.specs.Prelude.{length};
ghost use Rattle.bus.specs.Memory.{Lengths};

use crate::{Device, code, load, store};
use word::Width;

// Their lengths are those that the refusals accept.
#[derive(Drop)]
pub struct Memories<'a> {
    pub rom: &'a [u8],
    pub wram: &'a mut [u8],
    pub vram: &'a mut [u8],
    pub pak: &'a mut [u8],
    pub device: &'a mut Device,
    ghost lengths: { Lengths (length rom.now) (length wram.now) (length vram.now) (length pak.now) },
}

impl<'a> Memories<'a> {
    ghost use Rattle.std.specs.Prelude.{◌≡◌, ℕ, ◌+◌, ◌%◌, ◌<◌};
    ghost use Rattle.word.specs.Choose.{pick};
    ghost use Rattle.word.specs.Width.{bytes_of};
    ghost use Rattle.bus.specs.Memory.{Reads, store_of};
    ghost use Rattle.bus.specs.inner.Code.{Stands, Halves};
    ghost use Rattle.bus.specs.Memories.{held_by, SameLoans};

    // What the bytes of a width hold at the aligned address.
    #[inline(always)]
    pub fn load(&self, width: Width, address: u32) -> u32
        ensures { Reads (held_by self.now) (bytes_of width) address result }
    {
        match load::direct(self.rom, self.wram, self.vram, width, address) {
            Some(value) => value,
            None => load::elsewhere(self.pak, self.device, width, address),
        }
    }

    // The two halfwords at index x of ROM or of WRAM, in one word.
    #[inline(always)]
    pub fn fetch(&self, in_rom: bool, x: usize) -> u32
        requires { x + 3 < pick in_rom (length self.now.rom.now) (length self.now.wram.now) }
        ensures { (base last : ℕ) → Stands (length self.now.rom.now) in_rom base last → x % 2 ≡ 0 → x < last
            → Halves (held_by self.now) base x result }
    {
        code::fetch(self.rom, self.wram, in_rom, x)
    }

    // Stores the low bytes of a value there. `value` is the whole source register: a byte store writes its low 16 bits to
    // a VIP register.
    pub fn store(&mut self, width: Width, address: u32, value: u32)
        ensures bytes { held_by self.new ≡ store_of (held_by self.old) (bytes_of width) address value }
        ensures same { SameLoans self.old self.new }
    {
        if !store::direct(self.wram, self.vram, width, address, value) {
            store::elsewhere(self.pak, self.device, width, address, value);
        }
    }
}
