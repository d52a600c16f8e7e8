// The bodies of a file: written into a buffer, and the memories taken out of a file.
ghost use Rattle.std.specs.Prelude.{◌≡◌, ◌+◌, ◌≤◌, ◌++◌, length};
ghost use Rattle.saved_bytes.specs.Numbers.{bytes_of, halves_of};
ghost use Rattle.saved_bytes.specs.inner.Put.{put_at};
ghost use Rattle.saved_layout.specs.Layout.{file_length_of};
ghost use Rattle.saved_layout.specs.File.{bodies_of, bodies_in, file_of};

use crate::places::{DRAWING_AT, PAK_AT, REST_AT, VRAM_AT, WRAM_AT};
use crate::{Form, contents, places};
use saved_bytes::{numbers, parts};

// Kinds 1 and 2 from byte `at` on.
fn put_records(output: &mut [u8], at: usize, regs: &[u32; 32], rest: &[u32; 11], halves: &[u16; 13])
    requires regs_len { (length regs.now ≡ 32) × ((length rest.now ≡ 11) × (length halves.now ≡ 13)) }
    requires at_in_bounds { at + 198 ≤ length output.old }
    ensures { output.new ≡ put_at output.old at
        (bytes_of (halves_of (regs.now ++ rest.now)) ++ bytes_of halves.now) }
{
    numbers::put_words(output, at, regs);
    numbers::put_words(output, at + REST_AT, rest);
    numbers::put_halves(output, at + DRAWING_AT, halves);
}

// Kinds 3 to 5 from byte `at` on.
fn put_memories(output: &mut [u8], at: usize, wram: &[u8], vram: &[u8], pak: &[u8])
    requires { at + length wram.now + length vram.now + length pak.now ≤ length output.old }
    ensures { output.new
        ≡ put_at output.old at (wram.now ++ (vram.now ++ pak.now)) }
{
    parts::put_bytes(output, at, wram);
    parts::put_bytes(output, at + wram.len(), vram);
    parts::put_bytes(output, at + wram.len() + vram.len(), pak);
}

// A file into a buffer of its length.
pub fn write(
    form: Form,
    output: &mut [u8],
    regs: &[u32; 32],
    rest: &[u32; 11],
    halves: &[u16; 13],
    wram: &[u8],
    vram: &[u8],
    pak: &[u8],
    hardware: &[u16; 4],
)
    requires regs_len { (length regs.now ≡ 32) × ((length rest.now ≡ 11) × (length halves.now ≡ 13)) }
    requires wram_len { (length wram.now ≡ 65536) × ((length vram.now ≡ 262144) × (length pak.now ≤ 16777216)) }
    requires hardware_len { (length hardware.now ≡ 4) × (length output.old ≡ file_length_of form (length pak.now)) }
    ensures { output.new ≡ file_of form
        (bodies_of (bytes_of (halves_of (regs.now ++ rest.now))) (bytes_of halves.now)
        wram.now vram.now pak.now (bytes_of hardware.now)) }
{
    let at = places::first(form, pak.len());
    put_records(output, at, regs, rest, halves);
    put_memories(output, at + WRAM_AT, wram, vram, pak);
    match form {
        Form::One => contents::put(Form::One, output, pak.len()),
        Form::Two => {
            numbers::put_halves(output, at + PAK_AT + pak.len(), hardware);
            contents::put(Form::Two, output, pak.len())
        }
    }
}

// WRAM, VRAM and pak RAM out of a file, into memories of their lengths.
pub fn take_memories(form: Form, file: &[u8], wram: &mut [u8], vram: &mut [u8], pak: &mut [u8])
    requires wram_len { (length wram.old ≡ 65536) × (length vram.old ≡ 262144) }
    requires file_len { (length file.now ≡ file_length_of form (length pak.old)) × (length pak.old ≤ 16777216) }
    ensures wram_after { wram.new ≡ (bodies_in form (length pak.old) file.now).wram }
    ensures vram_after { vram.new ≡ (bodies_in form (length pak.old) file.now).vram }
    ensures pak_after { pak.new ≡ (bodies_in form (length pak.old) file.now).pak }
{
    let at = places::first(form, pak.len());
    let ram = at + WRAM_AT;
    let video = at + VRAM_AT;
    let save = at + PAK_AT;
    let end = save + pak.len();
    wram.copy_from_slice(&file[ram..video]);
    vram.copy_from_slice(&file[video..save]);
    pak.copy_from_slice(&file[save..end]);
}
