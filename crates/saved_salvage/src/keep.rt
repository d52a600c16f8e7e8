// Which bodies of a file are kept: those whose stored sum is the sum of their bytes and that a writer can have made.
ghost use Rattle.std.specs.Prelude.{◌≡◌, ◌≤◌, eqb, length};
ghost use Rattle.processor.specs.Acceptance.{both};
ghost use Rattle.saved_layout.specs.Layout.{file_length_of};
ghost use Rattle.saved_layout.specs.declared.Form.TheVariants.{Two};
ghost use Rattle.saved_salvage.specs.Keep.{kept_in};

use crate::Kept;
use crate::entries::{SUM_1, SUM_2, SUM_3, SUM_4, SUM_5, SUM_6};
use saved_kinds::bodies;
use saved_layout::places::{DRAWING_AT, HARDWARE_BYTES, PAK_AT, WRAM_AT};
use saved_layout::{Form, contents, places};

// Whether a body is kept, by its stored sum, its sum, and whether a writer can have made it.
fn keeps(stored: u32, sum: u32, made: bool) -> bool
    ensures { result ≡ both (eqb stored sum) made }
{
    if stored == sum {
        return made;
    }
    false
}

pub fn kept(file: &[u8], pak: usize) -> Kept
    requires { (length file.now ≡ file_length_of Two pak) × (pak ≤ 16777216) }
    ensures { result ≡ kept_in pak file.now }
{
    let sums = contents::sums(file, pak);
    let start = places::first(Form::Two, pak);
    let middle = start + DRAWING_AT;
    let end = start + WRAM_AT;
    let last = start + PAK_AT + pak;
    let whole = last + HARDWARE_BYTES;
    let processor = keeps(
        word::word_at(file, SUM_1),
        sums[0],
        bodies::processor_ok(&file[start..middle]),
    );
    let drawing = keeps(
        word::word_at(file, SUM_2),
        sums[1],
        bodies::drawing_ok(&file[middle..end]),
    );
    let wram = keeps(word::word_at(file, SUM_3), sums[2], true);
    let vram = keeps(word::word_at(file, SUM_4), sums[3], true);
    let made = bodies::hardware_ok(&file[last..whole]);
    if pak == 0 {
        return Kept {
            processor,
            drawing,
            wram,
            vram,
            pak: true,
            hardware: keeps(word::word_at(file, SUM_5), sums[5], made),
        };
    }
    Kept {
        processor,
        drawing,
        wram,
        vram,
        pak: keeps(word::word_at(file, SUM_5), sums[4], true),
        hardware: keeps(word::word_at(file, SUM_6), sums[5], made),
    }
}
