// Drawing, and the lookup of a character.
ghost use Rattle.std.specs.Prelude.{◌≡◌, length};
ghost use Rattle.refusal.specs.Number.{verdict_number};
ghost use Rattle.drawing.specs.Calls.{strip_verdict_of, draw_strip_of, frame_verdict_of, draw_frame_of, character_verdict_of};
ghost use Rattle.drawing.specs.Calls.{character_of};
ghost use Rattle.capi_drawing.specs.Pictures.{part_offset};

use bus::Drawing;
use capi_bus::accesses::VbDrawing;
use drawing_pixel::character::character_address;
use refusal::verdict_number;

// Where a character's bytes lie in VRAM.
#[repr(C)]
#[derive(Clone, Copy)]
pub struct VbPart {
    pub refusal: u32,
    pub offset: u64,
    pub length: u64,
}

pub fn draw_strip(vram: &mut [u8], drawing: VbDrawing, frame: u32, strip: u32) -> u32
    ensures refusal { result ≡ verdict_number (strip_verdict_of vram.old drawing.regs frame strip) }
    ensures memory { vram.new ≡ draw_strip_of vram.old drawing.regs frame strip }
{
    let regs = drawing.regs;
    verdict_number(drawing::draw_strip(vram, Drawing { regs }, frame, strip))
}

pub fn draw_frame(vram: &mut [u8], drawing: VbDrawing, frame: u32) -> u32
    ensures refusal { result ≡ verdict_number (frame_verdict_of vram.old drawing.regs frame) }
    ensures memory { vram.new ≡ draw_frame_of vram.old drawing.regs frame }
{
    let regs = drawing.regs;
    verdict_number(drawing::draw_frame(vram, Drawing { regs }, frame))
}

pub fn character(vram: &[u8], character: u32) -> VbPart
    ensures refusal { result.refusal ≡ verdict_number (character_verdict_of vram.now character) }
    ensures offset { result.offset ≡ part_offset (character_verdict_of vram.now character) character }
    ensures length { result.length ≡ length (character_of vram.now character) }
{
    match drawing::character_part(vram, character) {
        Ok(part) => VbPart {
            refusal: 0,
            offset: character_address(character as usize) as u64,
            length: part.len() as u64,
        },
        Err(refusal) => VbPart {
            refusal: u32::from(refusal),
            offset: 0,
            length: 0,
        },
    }
}
