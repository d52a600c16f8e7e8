// Refusals 1 to 5, as far as memories and device registers are their subject.
ghost use Rattle.std.specs.Prelude.{◌≡◌, true};
ghost use Rattle.bus.specs.Refusal.{rom_ok, pak_ok};
ghost use Rattle.bus.specs.Registers.{drawing_ok};
ghost use Rattle.bus.specs.TimerLines.{device_of, registers_ok};
ghost use Rattle.bus.specs.Memory.{verdict_when, verdict_at};

use crate::registers::LIMITS;
use crate::{Device, DrawingRegisters, device};
use bus_timer::TimerLines;
use refusal::Refusal;

// Whether a ROM may be n bytes long.
#[tactic(auto, using(crate::proofs::Lengths::rom_test))]
pub fn rom_ok(n: usize) -> bool
    ensures { result ≡ rom_ok n }
{
    n.is_power_of_two() && (1024..=16777216).contains(&n)
}

// Whether pak RAM may be n bytes long.
#[tactic(auto, using(crate::proofs::Lengths::pak_test))]
pub fn pak_ok(n: usize) -> bool
    ensures { result ≡ pak_ok n }
{
    n == 0 || n.is_power_of_two() && n <= 16777216
}

// Whether every drawing register is within its width.
pub fn drawing_ok(regs: &DrawingRegisters) -> bool
    ensures { result ≡ drawing_ok regs.now }
{
    for (k, x) in regs.iter().enumerate() {
        if LIMITS[k] <= *x {
            return false;
        }
    }
    true
}

// Whether every drawing register, the request lines and the timer are within their widths.
#[tactic(auto, using(crate::proofs::Devices::parts))]
pub fn records_ok(drawing: &DrawingRegisters, hardware: TimerLines) -> bool
    ensures { result ≡ registers_ok (device_of drawing.now hardware) }
{
    drawing_ok(drawing) && hardware.is_ok()
}

// The same of the device registers.
#[tactic(auto, using(crate::proofs::Devices::parts))]
pub fn registers_ok(device: &Device) -> bool
    ensures { result ≡ registers_ok device.now }
{
    let drawing = device::drawing_in(device);
    records_ok(&drawing, device::hardware_in(device))
}

// The lowest of refusals 1 to 4 whose condition holds: of the memories' lengths.
#[tactic(auto, unfolding(crate::specs::Refusal::wram_ok, crate::specs::Refusal::vram_ok))]
pub fn lengths(rom: usize, wram: usize, vram: usize, pak: usize) -> Result<(), Refusal>
    ensures { result ≡ verdict_when rom wram vram pak true }
{
    if !rom_ok(rom) {
        return Err(Refusal::RomLength);
    }
    if wram != 65536 {
        return Err(Refusal::WramLength);
    }
    if vram != 262144 {
        return Err(Refusal::VramLength);
    }
    if !pak_ok(pak) {
        return Err(Refusal::PakLength);
    }
    Ok(())
}

// The same, then refusal 5, where it is known whether its condition holds.
fn first(rom: usize, wram: usize, vram: usize, pak: usize, state: bool) -> Result<(), Refusal>
    ensures { result ≡ verdict_when rom wram vram pak state }
{
    lengths(rom, wram, vram, pak)?;
    if !state {
        return Err(Refusal::State);
    }
    Ok(())
}

// The lowest of refusals 1 to 5 whose condition holds of the memories' lengths and the device registers.
#[tactic(auto, unfolding(crate::specs::Memory::verdict_at))]
pub fn verdict(
    rom: usize,
    wram: usize,
    vram: usize,
    pak: usize,
    regs: &Device,
) -> Result<(), Refusal>
    ensures { result ≡ verdict_at rom wram vram pak regs.now }
{
    first(rom, wram, vram, pak, registers_ok(regs))
}

// The same of the two records that a public call is given.
#[tactic(auto, unfolding(crate::specs::Memory::verdict_at))]
pub fn call_verdict(
    rom: usize,
    wram: usize,
    vram: usize,
    pak: usize,
    drawing: &DrawingRegisters,
    hardware: TimerLines,
) -> Result<(), Refusal>
    ensures { result ≡ verdict_at rom wram vram pak (device_of drawing.now hardware) }
{
    first(rom, wram, vram, pak, records_ok(drawing, hardware))
}
