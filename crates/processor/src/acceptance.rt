// Refusals 1 to 5, with what 5 says of the processor.
ghost use Rattle.std.specs.Prelude.{◌≡◌};
ghost use Rattle.processor.specs.Acceptance.{even_ok, formats_ok, state_ok, acceptance_at};

use bus::Device;
use refusal::Refusal;

// Whether PC, EIPC, FEPC and register 25 are even.
fn even_ok(sys: &[u32; 8], pc: u32) -> bool
    ensures { result ≡ even_ok sys.now pc }
{
    if pc % 2 != 0 {
        return false;
    }
    if sys[0] % 2 != 0 {
        return false;
    }
    if sys[2] % 2 != 0 {
        return false;
    }
    sys[5] % 2 == 0
}

// Whether PSW, EIPSW and FEPSW have no bit outside their format.
fn formats_ok(sys: &[u32; 8], psw: u32) -> bool
    ensures { result ≡ formats_ok sys.now psw }
{
    if processor_machine::system::psw_bits(psw) != psw {
        return false;
    }
    let eipsw = sys[1];
    if processor_machine::system::psw_bits(eipsw) != eipsw {
        return false;
    }
    let fepsw = sys[3];
    processor_machine::system::psw_bits(fepsw) == fepsw
}

// Whether the processor state is valid (refusal 5). Internal: `pub` for the crate saved_kinds.
pub fn state_ok(regs: &[u32; 32], sys: &[u32; 8], pc: u32, psw: u32) -> bool
    ensures { result ≡ state_ok regs.now sys.now pc psw }
{
    if regs[0] != 0 {
        return false;
    }
    if !even_ok(sys, pc) {
        return false;
    }
    if !formats_ok(sys, psw) {
        return false;
    }
    sys[7] <= 2147483648
}

// The lowest of refusals 1 to 5 whose condition holds.
pub fn acceptance(
    rom: usize,
    wram: usize,
    vram: usize,
    pak: usize,
    device: &Device,
    regs: &[u32; 32],
    sys: &[u32; 8],
    pc: u32,
    psw: u32,
) -> Result<(), Refusal>
    ensures { result ≡ acceptance_at rom wram vram pak device.now regs.now sys.now pc psw }
{
    match bus::refusals::verdict(rom, wram, vram, pak, device) {
        Err(n) => Err(n),
        Ok(()) => {
            if !state_ok(regs, sys, pc, psw) {
                return Err(Refusal::State);
            }
            Ok(())
        }
    }
}
