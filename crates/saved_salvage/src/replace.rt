// The bodies of the output: those of the file that are kept, and reset values for the others.
ghost use Rattle.std.specs.Prelude.{◌≡◌, ◌+◌, ◌≤◌, length, take, drop};
ghost use Rattle.word.specs.Choose.{pick};
ghost use Rattle.saved_bytes.specs.inner.Put.{put_at};
ghost use Rattle.saved_layout.specs.Layout.{file_length_of, body_place_of};
ghost use Rattle.saved_layout.specs.File.{bodies_in, joined_of};
ghost use Rattle.saved_layout.specs.declared.Form.TheVariants.{Two};
ghost use Rattle.saved_salvage.specs.Keep.{processor_reset, or_zeros, kept_bodies_of};

use crate::Kept;
use saved_bytes::{numbers, parts};
use saved_kinds::words;
use saved_layout::places::{
    DRAWING_AT, DRAWING_BYTES, HARDWARE_BYTES, PAK_AT, PROCESSOR_BYTES, REST_AT, VRAM_AT,
    VRAM_BYTES, WRAM_AT, WRAM_BYTES,
};
use saved_layout::{Form, places};

// Kind 1, which starts at byte `at` in both.
fn put_processor(file: &[u8], output: &mut [u8], at: usize, kept: bool)
    requires { (at + 172 ≤ length file.now) × (at + 172 ≤ length output.old) }
    ensures { output.new ≡ put_at output.old at
        (pick kept (take 172 (drop at file.now)) processor_reset) }
{
    if kept {
        let end = at + PROCESSOR_BYTES;
        parts::put_bytes(output, at, &file[at..end]);
        return;
    }
    let reset = processor::calls::reset();
    let p = reset.processor;
    let regs = p.regs;
    let rest = words::rest(p);
    numbers::put_words(output, at, &regs);
    numbers::put_words(output, at + REST_AT, &rest);
}

// Another kind of `size` bytes, whose reset values are zeros.
fn put_body(file: &[u8], output: &mut [u8], at: usize, size: usize, kept: bool)
    requires { (at + size ≤ length file.now) × (at + size ≤ length output.old) }
    ensures { output.new ≡ put_at output.old at (or_zeros kept (take size (drop at file.now))) }
{
    if kept {
        let end = at + size;
        parts::put_bytes(output, at, &file[at..end]);
        return;
    }
    parts::put_zeros(output, at, size);
}

// All bodies, at their places.
pub fn put_bodies(file: &[u8], output: &mut [u8], pak: usize, kept: Kept)
    requires file_len { (length file.now ≡ file_length_of Two pak) × (pak ≤ 16777216) }
    requires output_len { length output.old ≡ file_length_of Two pak }
    ensures { output.new ≡ put_at output.old (body_place_of Two pak 0)
        (joined_of Two (kept_bodies_of kept (bodies_in Two pak file.now))) }
{
    let at = places::first(Form::Two, pak);
    put_processor(file, output, at, kept.processor);
    put_body(file, output, at + DRAWING_AT, DRAWING_BYTES, kept.drawing);
    put_body(file, output, at + WRAM_AT, WRAM_BYTES, kept.wram);
    put_body(file, output, at + VRAM_AT, VRAM_BYTES, kept.vram);
    put_body(file, output, at + PAK_AT, pak, kept.pak);
    put_body(
        file,
        output,
        at + PAK_AT + pak,
        HARDWARE_BYTES,
        kept.hardware,
    );
}
