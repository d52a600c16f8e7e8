// The drawing calls: a strip, a frame, and the lookup of a character.
#![tactic(auto)]

pub mod refusals;

ghost use Rattle.std.specs.Prelude.{◌≡◌, ◌+◌, IfOk, IfErr, Ok, Err};
ghost use Rattle.drawing_pixel.specs.Character.{character_address_of};
ghost use Rattle.drawing.specs.Calls.{strip_verdict_of, draw_strip_of, frame_verdict_of, draw_frame_of};
ghost use Rattle.drawing.specs.Calls.{character_verdict_of, character_of};

use bus::Drawing;
use drawing_pixel::character::character_address;
use refusal::Refusal;

// Draws strip `strip` of a frame into the images of both eyes.
#[tactic(auto, using(crate::proofs::Widths::drawable), unfolding(bus::specs::Refusal::vram_ok, crate::specs::Calls::frame_verdict_of, crate::specs::Calls::strip_verdict_of, crate::specs::Calls::draw_strip_of))]
pub fn draw_strip(vram: &mut [u8], drawing: Drawing, frame: u32, strip: u32) -> Result<(), Refusal>
    ensures verdict { result ≡ strip_verdict_of vram.old drawing.regs frame strip }
    ensures memory { vram.new ≡ draw_strip_of vram.old drawing.regs frame strip }
{
    let regs = drawing.regs;
    refusals::frame(vram, &regs, frame)?;
    if strip > 27 {
        return Err(Refusal::Index);
    }
    drawing_strip::draw(vram, &regs, frame as usize, strip as usize);
    Ok(())
}

// Draws a frame, strips 0 to 27, into the images of both eyes.
#[tactic(auto, using(crate::proofs::Widths::drawable), unfolding(bus::specs::Refusal::vram_ok, crate::specs::Calls::frame_verdict_of, crate::specs::Calls::draw_frame_of))]
pub fn draw_frame(vram: &mut [u8], drawing: Drawing, frame: u32) -> Result<(), Refusal>
    ensures verdict { result ≡ frame_verdict_of vram.old drawing.regs frame }
    ensures memory { vram.new ≡ draw_frame_of vram.old drawing.regs frame }
{
    let regs = drawing.regs;
    refusals::frame(vram, &regs, frame)?;
    drawing_strip::draw_all(vram, &regs, frame as usize);
    Ok(())
}

// A character's 16 bytes, a part of the caller's VRAM that begins at the character's address, or why the lookup is refused.
#[tactic(auto, unfolding(bus::specs::Refusal::vram_ok, crate::specs::Calls::character_verdict_of, crate::specs::Calls::character_of))]
pub fn character_part(vram: &[u8], c: u32) -> Result<&[u8], Refusal>
    ensures accepted { IfOk result (λ part. (character_verdict_of vram.now c ≡ Ok tt)
        × (part.now ≡ character_of vram.now c)) }
    ensures place { IfOk result (λ part. (part.ref_ptr.0 ≡ vram.entry.ref_ptr.0)
        × (part.ref_ptr.1 ≡ vram.entry.ref_ptr.1 + character_address_of c)) }
    ensures refused { IfErr result (λ refusal. character_verdict_of vram.now c ≡ Err refusal) }
{
    refusals::vram_length(vram)?;
    if c > 2047 {
        return Err(Refusal::Index);
    }
    let start = character_address(c as usize);
    Ok(&vram[start..start + 16])
}

// A character's 16 bytes, a part of the caller's VRAM that begins at the character's address; empty where
// `character_refusal` refuses.
#[tactic(auto, unfolding(crate::specs::Calls::character_of))]
pub fn character(vram: &[u8], c: u32) -> &[u8]
    ensures bytes { result.now ≡ character_of vram.now c }
    ensures place { character_verdict_of vram.now c ≡ Ok tt
        → (result.ref_ptr.0 ≡ vram.entry.ref_ptr.0) × (result.ref_ptr.1 ≡ vram.entry.ref_ptr.1 + character_address_of c) }
{
    match character_part(vram, c) {
        Ok(part) => part,
        Err(_) => &vram[..0],
    }
}

// Why the lookup of a character is refused, if it is.
pub fn character_refusal(vram: &[u8], c: u32) -> Result<(), Refusal>
    ensures { result ≡ character_verdict_of vram.now c }
{
    character_part(vram, c)?;
    Ok(())
}
