// The probe: the bench's overlay painter writes a byte, a halfword or a word into the VRAM that the program draws
// from, into characters 1,536 to 2,047 and background maps 12 and 13 alone. The four memories are borrowed, and VRAM
// alone can change.
#![tactic(auto)]

ghost use Rattle.std.specs.Prelude.{◌≡◌, false, true, ℕ, MatchOption};
ghost use Rattle.word.specs.Width.{bytes_of};
ghost use Rattle.bus_probe.specs.Probe.{in_ranges_of, target_of};
ghost use Rattle.bus_probe.specs.Lent.{lent_verdict_of, vram_of};

use bus::{Place, map, number, refusals};
use refusal::Refusal;
use word::Width;

// Whether byte i of VRAM is of characters 1,536 to 2,047 or of background maps 12 and 13.
#[tactic(auto, unfolding(crate::specs::Probe::in_ranges_of))]
fn in_ranges(i: usize) -> bool
    ensures { result ≡ in_ranges_of i }
{
    matches!(i, 0x1E000..0x20000 | 0x38000..0x3C000)
}

// Where a write at an address begins in VRAM, if it may be written.
fn target(width: Width, address: u32) -> Option<usize>
    ensures { (rom pak : ℕ) → let t = target_of rom pak (bytes_of width) address in
        MatchOption result (in_ranges_of t ≡ false) (λ i. (i ≡ t) × (in_ranges_of t ≡ true)) }
{
    match map::place_of(map::aligned(width, address)) {
        Place::Vram(i) => in_ranges(i).then_some(i),
        _ => None,
    }
}

// Writes the low bytes of a value, as many as the width has, at the aligned address.
#[tactic(auto, unfolding(crate::specs::Probe::probed_of, crate::specs::Probe::probe_verdict_of, crate::specs::Probe::probe_verdict_at))]
pub fn probe(
    rom: &[u8],
    wram: &[u8],
    vram: &mut [u8],
    pak: &[u8],
    width: Width,
    address: u32,
    value: u32,
) -> Result<(), Refusal>
    ensures verdict { result ≡ lent_verdict_of (bytes_of width) rom.now wram.now vram.old pak.now address }
    ensures memory { vram.new ≡ vram_of (bytes_of width) rom.now wram.now vram.old pak.now address value }
{
    refusals::lengths(rom.len(), wram.len(), vram.len(), pak.len())?;
    let target = target(width, address).ok_or(Refusal::ProbeTarget)?;
    number::put_number(vram, width, target, value);
    Ok(())
}
