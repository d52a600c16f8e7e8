// Writes of the bench's overlay painter into VRAM.
ghost use Rattle.std.specs.Prelude.{◌≡◌};
ghost use Rattle.refusal.specs.Number.{verdict_number};
ghost use Rattle.bus_probe.specs.Lent.{lent_verdict_of, vram_of};

use capi_bus::probes;
use word::Width;

#[unsafe(no_mangle)]
pub extern "C" fn vb_probe_byte(
    rom: &[u8],
    wram: &[u8],
    vram: &mut [u8],
    pak: &[u8],
    address: u32,
    value: u32,
) -> u32
    ensures refusal { result ≡ verdict_number (lent_verdict_of 1 rom.now wram.now vram.old pak.now address) }
    ensures memory { vram.new ≡ vram_of 1 rom.now wram.now vram.old pak.now address value }
{
    probes::probe(rom, wram, vram, pak, Width::Byte, address, value)
}

#[unsafe(no_mangle)]
pub extern "C" fn vb_probe_half(
    rom: &[u8],
    wram: &[u8],
    vram: &mut [u8],
    pak: &[u8],
    address: u32,
    value: u32,
) -> u32
    ensures refusal { result ≡ verdict_number (lent_verdict_of 2 rom.now wram.now vram.old pak.now address) }
    ensures memory { vram.new ≡ vram_of 2 rom.now wram.now vram.old pak.now address value }
{
    probes::probe(rom, wram, vram, pak, Width::Half, address, value)
}

#[unsafe(no_mangle)]
pub extern "C" fn vb_probe_word(
    rom: &[u8],
    wram: &[u8],
    vram: &mut [u8],
    pak: &[u8],
    address: u32,
    value: u32,
) -> u32
    ensures refusal { result ≡ verdict_number (lent_verdict_of 4 rom.now wram.now vram.old pak.now address) }
    ensures memory { vram.new ≡ vram_of 4 rom.now wram.now vram.old pak.now address value }
{
    probes::probe(rom, wram, vram, pak, Width::Word, address, value)
}
