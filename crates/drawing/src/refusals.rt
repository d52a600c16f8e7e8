// The tests that the calls share: refusals 3, 5 and 7, lowest number first.
ghost use Rattle.std.specs.Prelude.{◌≡◌};
ghost use Rattle.drawing.specs.Calls.{length_verdict_of, state_verdict_of, frame_verdict_of};

use bus::DrawingRegisters;
use refusal::Refusal;

// 3: VRAM has 262,144 bytes.
#[tactic(auto, unfolding(bus::specs::Refusal::vram_ok))]
pub(crate) fn vram_length(vram: &[u8]) -> Result<(), Refusal>
    ensures { result ≡ length_verdict_of vram.now }
{
    if vram.len() != 262144 {
        return Err(Refusal::VramLength);
    }
    Ok(())
}

// 3 and 5: every drawing register is within its width.
pub fn state(vram: &[u8], registers: &DrawingRegisters) -> Result<(), Refusal>
    ensures { result ≡ state_verdict_of vram.now registers.now }
{
    vram_length(vram)?;
    if !bus::refusals::drawing_ok(registers) {
        return Err(Refusal::State);
    }
    Ok(())
}

// 3, 5 and 7: the frame is 0 or 1.
#[tactic(auto, unfolding(crate::specs::Calls::frame_verdict_of))]
pub(crate) fn frame(vram: &[u8], registers: &DrawingRegisters, frame: u32) -> Result<(), Refusal>
    ensures { result ≡ frame_verdict_of vram.now registers.now frame }
{
    state(vram, registers)?;
    if frame > 1 {
        return Err(Refusal::Frame);
    }
    Ok(())
}
