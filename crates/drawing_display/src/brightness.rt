// What is shown: the levels of every group of four columns first, then the pixels, strip by strip.
ghost use Rattle.std.specs.Prelude.{◌≡◌, ◌+◌, ◌-◌, ◌*◌, ◌/◌, ◌%◌, ◌<◌, ◌≤◌, length, get_or};
ghost use Rattle.bus.specs.Refusal.{vram_bytes};
ghost use Rattle.drawing_pixel.specs.Character.{two_bits_of};
ghost use Rattle.drawing_display.specs.Brightness.{time_of, lamp_level_of, repeats_of};
ghost use Rattle.drawing_display.specs.Calls.{shown_of};
ghost use Rattle.drawing_display.specs.inner.Output.{Levels, Column, Columns, pixel_in};

use crate::{Durations, View};
use drawing_pixel::field::{half, pair};

impl Durations {
    // How long a shade is lit.
    #[tactic(auto, unfolding(crate::specs::Brightness::time_of))]
    fn time(self, shade: usize) -> usize
        ensures { (result ≡ time_of self shade) × (result ≤ 765) }
    {
        match shade {
            0 => 0,
            1 => usize::from(self.brta),
            2 => usize::from(self.brtb),
            _ => usize::from(self.brta) + usize::from(self.brtb) + usize::from(self.brtc),
        }
    }

    // What a shade looks like in the columns that use an entry of the column table.
    #[tactic(auto, unfolding(crate::specs::Brightness::lamp_level_of, crate::specs::Brightness::repeats_of))]
    fn level(self, shade: usize, entry: u16) -> u8
        ensures { result ≡ lamp_level_of self shade (repeats_of entry) }
    {
        (self.time(shade) * (usize::from(entry) / 256 + 1)).min(128) as u8
    }

    // The levels of the four shades for each group of four columns: that of shade v in columns 4g to 4g + 3 at 4g + v.
    // The eye's column table begins at `table`.
    fn levels(self, vram: &[u8], table: usize, start: usize) -> [u8; 384]
        requires { (length vram.now ≡ vram_bytes) × ((table ≤ 253440) × ((95 ≤ start) × (start < 256))) }
        ensures { Levels vram.now self table start 384 result }
    {
        let mut levels = [0; 384];
        for (k, level) in levels.iter_mut().enumerate() {
            *level = self.level(k % 4, half(vram, table + 2 * (start - k / 4)));
        }
        levels
    }
}

// Eight pixels of a column, whose levels are the four from `group` on, into the output buffer from byte `at` on.
fn show_column(output: &mut [u8], levels: &[u8; 384], at: usize, group: usize, column: usize)
    requires { (at + 2688 < length output.old) × (group ≤ 380) }
    ensures { Column at 8 (λ r. get_or levels.now (group + two_bits_of column r) 0)
        output.old output.new }
{
    for r in 0..8 {
        output[at + 384 * r] = levels[group + pair(column, r)];
    }
}

// The 384 columns of a strip of the image that begins at `base`.
fn show_strip(vram: &[u8], output: &mut [u8], levels: &[u8; 384], base: usize, strip: usize)
    requires { (length vram.now ≡ vram_bytes) × ((length output.old ≡ 86016) × ((base ≤ 98304) × (strip < 28))) }
    ensures { Columns strip 384 (pixel_in vram.now levels.now base)
        output.old output.new }
{
    for x in 0..384 {
        let column = usize::from(half(vram, base + 64 * x + 2 * strip));
        show_column(output, levels, 3072 * strip + x, x - x % 4, column);
    }
}

// All pixels of a view.
pub fn show(vram: &[u8], output: &mut [u8], view: View, durations: Durations)
    requires vram_len { (length vram.now ≡ vram_bytes)
        × ((view.frame < 2) × ((view.eye < 2) × ((95 ≤ view.start) × (view.start < 256)))) }
    requires output_len { length output.old ≡ 86016 }
    ensures { output.new ≡ shown_of vram.now view durations }
{
    let eye = view.eye as usize;
    let levels = durations.levels(vram, 252928 + 512 * eye, view.start as usize);
    let base = 32768 * view.frame as usize + 65536 * eye;
    for strip in 0..28 {
        show_strip(vram, output, &levels, base, strip);
    }
}
