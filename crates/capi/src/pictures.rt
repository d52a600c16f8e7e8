// Drawing, and the lookup of a character.
ghost use Rattle.std.specs.Prelude.{◌≡◌, length};
ghost use Rattle.refusal.specs.Number.{verdict_number};
ghost use Rattle.drawing.specs.Calls.{strip_verdict_of, draw_strip_of, frame_verdict_of, draw_frame_of, character_verdict_of};
ghost use Rattle.drawing.specs.Calls.{character_of};
ghost use Rattle.capi_drawing.specs.Pictures.{part_offset};

use capi_bus::accesses::VbDrawing;
use capi_drawing::pictures::VbPart;

#[unsafe(no_mangle)]
pub extern "C" fn vb_draw_strip(vram: &mut [u8], drawing: VbDrawing, frame: u32, strip: u32) -> u32
    ensures refusal { result ≡ verdict_number (strip_verdict_of vram.old drawing.regs frame strip) }
    ensures memory { vram.new ≡ draw_strip_of vram.old drawing.regs frame strip }
{
    capi_drawing::pictures::draw_strip(vram, drawing, frame, strip)
}

#[unsafe(no_mangle)]
pub extern "C" fn vb_draw_frame(vram: &mut [u8], drawing: VbDrawing, frame: u32) -> u32
    ensures refusal { result ≡ verdict_number (frame_verdict_of vram.old drawing.regs frame) }
    ensures memory { vram.new ≡ draw_frame_of vram.old drawing.regs frame }
{
    capi_drawing::pictures::draw_frame(vram, drawing, frame)
}

#[unsafe(no_mangle)]
pub extern "C" fn vb_character(vram: &[u8], character: u32) -> VbPart
    ensures refusal { result.refusal ≡ verdict_number (character_verdict_of vram.now character) }
    ensures offset { result.offset ≡ part_offset (character_verdict_of vram.now character) character }
    ensures length { result.length ≡ length (character_of vram.now character) }
{
    capi_drawing::pictures::character(vram, character)
}
