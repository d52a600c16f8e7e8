// Writes of the bench's overlay painter into VRAM.
ghost use Rattle.std.specs.Prelude.{◌≡◌};
ghost use Rattle.word.specs.Width.{bytes_of};
ghost use Rattle.refusal.specs.Number.{verdict_number};
ghost use Rattle.bus_probe.specs.Lent.{lent_verdict_of, vram_of};

use refusal::verdict_number;
use word::Width;

pub fn probe(
    rom: &[u8],
    wram: &[u8],
    vram: &mut [u8],
    pak: &[u8],
    width: Width,
    address: u32,
    value: u32,
) -> u32
    ensures refusal { result ≡ verdict_number (lent_verdict_of (bytes_of width) rom.now wram.now vram.old pak.now address) }
    ensures memory { vram.new ≡ vram_of (bytes_of width) rom.now wram.now vram.old pak.now address value }
{
    verdict_number(bus_probe::probe(rom, wram, vram, pak, width, address, value))
}
