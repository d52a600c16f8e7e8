// The display unit: the apparent brightness of each pixel of a frame for an eye, and the recommended column table.
#![tactic(auto)]

mod brightness;
mod column_table;

ghost use Rattle.std.specs.Prelude.{◌≡◌};
ghost use Rattle.drawing_display.specs.Calls.{display_verdict_of, display_of, load_table_verdict_of, load_table_of};

use refusal::Refusal;

// What is shown: a frame and an eye, and the entry of the eye's column table that columns 0 to 3 use.
#[derive(Clone, Copy)]
pub struct View {
    pub frame: u32,
    pub eye: u32,
    pub start: u32,
}

// The brightness bytes: BRTA, BRTB and BRTC.
#[derive(Clone, Copy)]
pub struct Durations {
    pub brta: u8,
    pub brtb: u8,
    pub brtc: u8,
}

// Refusal 3: VRAM has 262,144 bytes.
#[tactic(auto, unfolding(bus::specs::Refusal::vram_ok, crate::specs::Calls::load_table_verdict_of))]
fn vram_length(vram: &[u8]) -> Result<(), Refusal>
    ensures { result ≡ load_table_verdict_of vram.now }
{
    if vram.len() != 262144 {
        return Err(Refusal::VramLength);
    }
    Ok(())
}

// The apparent brightness of pixel (x, y), 0 to 128, to byte 384y + x of the output buffer (paper 02: "room").
#[tactic(auto, unfolding(bus::specs::Refusal::vram_ok, crate::specs::Calls::display_ok, crate::specs::Calls::display_verdict_of, crate::specs::Calls::display_of, crate::specs::Calls::load_table_verdict_of))]
pub fn display(
    vram: &[u8],
    view: View,
    durations: Durations,
    output: &mut [u8],
) -> Result<(), Refusal>
    ensures verdict { result ≡ display_verdict_of vram.now view output.old }
    ensures output { output.new ≡ display_of vram.now view durations output.old }
{
    vram_length(vram)?;
    if view.frame > 1 {
        return Err(Refusal::Frame);
    }
    if view.eye > 1 || !(95..256).contains(&view.start) || output.len() != 86016 {
        return Err(Refusal::Display);
    }
    brightness::show(vram, output, view, durations);
    Ok(())
}

// The recommended column table into VRAM, for both eyes.
#[tactic(auto, unfolding(bus::specs::Refusal::vram_ok, crate::specs::Calls::load_table_verdict_of, crate::specs::Calls::load_table_of))]
pub fn load_column_table(vram: &mut [u8]) -> Result<(), Refusal>
    ensures verdict { result ≡ load_table_verdict_of vram.old }
    ensures memory { vram.new ≡ load_table_of vram.old }
{
    vram_length(vram)?;
    column_table::load(vram);
    Ok(())
}
