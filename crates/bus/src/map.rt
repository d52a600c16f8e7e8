// The address map: the one file that decodes an address. Every other file, here and in the crates above, goes by the
// place that is found here.
ghost use Rattle.std.specs.Prelude.{◌≡◌, true, ◌%◌, ◌<◌};
ghost use Rattle.word.specs.Width.{bytes_of};
ghost use Rattle.bus.specs.Refusal.{pak_ok};
ghost use Rattle.bus.specs.Memory.{aligned_of};
ghost use Rattle.bus.specs.inner.LeadsTo.{LeadsTo, VipLeadsTo};

use crate::Place;
use word::Width;

// The bytes of a region: an address has its offset there in its low 24 bits.
const REGION_BYTES: u32 = 0x1000000;

// Region 0, by the 19 bits that the VIP keeps: VRAM, then the registers' range, then the character mirror.
fn vip_place(v: u32) -> Place
    requires { v < 524288 }
    ensures { VipLeadsTo v result }
{
    if v < 0x40000 {
        return Place::Vram(v as usize);
    }
    if v < 0x78000 {
        return Place::Register(v);
    }
    let k = v - 0x78000;
    Place::Vram((0x6000 + k / 0x2000 * 0x8000 + k % 0x2000) as usize)
}

// The place of an address, by its region: bits 24 to 26.
#[tactic(auto, using(crate::proofs::Led::places), unfolding(bus_timer::specs::Ports::hardware_offset_of))]
#[inline(always)]
pub fn place_of(address: u32) -> Place
    ensures { LeadsTo address result }
{
    match address / REGION_BYTES % 8 {
        5 => Place::Wram((address % 65536) as usize),
        7 => Place::Rom(address),
        0 => vip_place(address % 524288),
        6 => Place::Pak(address),
        2 => Place::Port(address % REGION_BYTES),
        _ => Place::Nothing,
    }
}

// An access drops the address bits below its size.
#[inline(always)]
pub fn aligned(width: Width, address: u32) -> u32
    ensures { result ≡ aligned_of (bytes_of width) address }
{
    address - (address & (width.bytes() - 1))
}

// An address mod the length of a memory that repeats: of ROM or of pak RAM, whose lengths are powers of two.
pub fn wrapped(address: u32, length: usize) -> usize
    requires { (pak_ok length ≡ true) × (0 < length) }
    ensures { (result ≡ address % length) × (result < length) }
{
    (address as usize) & (length - 1)
}
