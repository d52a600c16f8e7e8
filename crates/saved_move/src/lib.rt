// A saved state moved from one form into the other.
#![tactic(auto)]

ghost use Rattle.std.specs.Prelude.{◌≡◌, ◌≤◌, length};
ghost use Rattle.saved_bytes.specs.Numbers.{same_of};
ghost use Rattle.saved_layout.specs.Layout.{file_length_of};
ghost use Rattle.saved_layout.specs.File.{file_of, bodies_in, hardware_reset};
ghost use Rattle.saved_layout.specs.declared.Form.TheVariants.{One, Two};
ghost use Rattle.saved_move.specs.Move.{move_verdict_of, moved_of};

use refusal::Refusal;
use saved_bytes::parts;
use saved_kinds::{bodies, lengths};
use saved_layout::places::{HARDWARE_BYTES, PAK_AT};
use saved_layout::{Form, contents, places};

// Whether the lines and the timer of a file in form 2 are at reset.
fn at_reset(file: &[u8], pak: usize) -> bool
    requires { (length file.now ≡ file_length_of Two pak) × (pak ≤ 16777216) }
    ensures { result ≡ same_of (bodies_in Two pak file.now).hardware hardware_reset }
{
    let last = places::first(Form::Two, pak) + PAK_AT + pak;
    let end = last + HARDWARE_BYTES;
    let zeros = [0u8; HARDWARE_BYTES];
    parts::same(&file[last..end], &zeros)
}

// A file in form 1 into a buffer of form 2: lines and timer are at reset.
fn to_two(file: &[u8], output: &mut [u8], pak: usize)
    requires file_len { (length file.now ≡ file_length_of One pak) × (pak ≤ 16777216) }
    requires output_len { length output.old ≡ file_length_of Two pak }
    ensures { output.new ≡ file_of Two (bodies_in One pak file.now) }
{
    let from = places::first(Form::One, pak);
    let end = from + PAK_AT + pak;
    let at = places::first(Form::Two, pak);
    parts::put_bytes(output, at, &file[from..end]);
    parts::put_zeros(output, at + PAK_AT + pak, HARDWARE_BYTES);
    contents::put(Form::Two, output, pak);
}

// A file in form 2 into a buffer of form 1.
fn to_one(file: &[u8], output: &mut [u8], pak: usize)
    requires file_len { (length file.now ≡ file_length_of Two pak) × (pak ≤ 16777216) }
    requires output_len { length output.old ≡ file_length_of One pak }
    ensures { output.new ≡ file_of One (bodies_in Two pak file.now) }
{
    let from = places::first(Form::Two, pak);
    let end = from + PAK_AT + pak;
    let at = places::first(Form::One, pak);
    parts::put_bytes(output, at, &file[from..end]);
    contents::put(Form::One, output, pak);
}

// The state that a file holds, into the output buffer (paper 02: "room") in the other form. The whole file is tested
// before a byte is stored.
pub fn move_state(file: &[u8], output: &mut [u8]) -> Result<(), Refusal>
    ensures verdict { result ≡ move_verdict_of file.now output.old }
    ensures output { output.new ≡ moved_of file.now output.old }
{
    let form = lengths::form_of(file);
    if !lengths::fits(form, file.len()) {
        return Err(Refusal::FileLength);
    }
    let pak = lengths::pak_length(form, file.len());
    if output.len() != places::file_length(places::other(form), pak) {
        return Err(Refusal::FileLength);
    }
    if !bodies::file_ok(form, file, pak) {
        return Err(Refusal::FileBytes);
    }
    match form {
        Form::One => {
            to_two(file, output, pak);
            Ok(())
        }
        Form::Two => {
            if !at_reset(file, pak) {
                return Err(Refusal::NotAtReset);
            }
            to_one(file, output, pak);
            Ok(())
        }
    }
}
