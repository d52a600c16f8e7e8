// Where the bodies of a file start, and how long it is.
ghost use Rattle.std.specs.Prelude.{◌≡◌, ◌≤◌, length};
ghost use Rattle.saved_layout.specs.Layout.{other_of, parts_of, body_place_of, file_length_of};
ghost use Rattle.saved_layout.specs.inner.Laid.{last_bytes_of};

use crate::Form;

// The lengths of the bodies but pak RAM's.
pub const PROCESSOR_BYTES: usize = 172;

pub const DRAWING_BYTES: usize = 26;

pub const WRAM_BYTES: usize = 65536;

pub const VRAM_BYTES: usize = 262144;

pub const HARDWARE_BYTES: usize = 8;

// Where PC and the system registers start in the processor's body, behind the 32 general registers.
pub const REST_AT: usize = 128;

// How far behind the first body the others start. Kind 6, the lines and the timer, follows pak RAM.
pub const DRAWING_AT: usize = PROCESSOR_BYTES;

pub const WRAM_AT: usize = DRAWING_AT + DRAWING_BYTES;

pub const VRAM_AT: usize = WRAM_AT + WRAM_BYTES;

pub const PAK_AT: usize = VRAM_AT + VRAM_BYTES;

// Where the first entry of the contents starts, behind the count, and how long an entry is. Form 2 has two halfwords
// before the count, and in each entry a sum behind kind, offset and length.
pub const FIRST_ENTRY_ONE: usize = 2;

pub const ENTRY_ONE_BYTES: usize = 10;

pub const FIRST_ENTRY_TWO: usize = 6;

pub const ENTRY_TWO_BYTES: usize = 14;

// The form that a file is moved to.
pub fn other(form: Form) -> Form
    ensures { result ≡ other_of form }
{
    match form {
        Form::One => Form::Two,
        Form::Two => Form::One,
    }
}

// How many bodies a file has: pak RAM is left out when empty, kind 6 in form 1.
pub fn count(form: Form, pak: usize) -> usize
    ensures { (result ≡ length (parts_of form pak)) × (result ≤ 6) }
{
    match form {
        Form::One => {
            if pak == 0 {
                return 4;
            }
            5
        }
        Form::Two => {
            if pak == 0 {
                return 5;
            }
            6
        }
    }
}

// The length of kind 6.
pub fn last_bytes(form: Form) -> usize
    ensures { (result ≡ last_bytes_of form) × (result ≤ 8) }
{
    match form {
        Form::One => 0,
        Form::Two => HARDWARE_BYTES,
    }
}

// Where the first body starts.
pub fn first(form: Form, pak: usize) -> usize
    ensures { (result ≡ body_place_of form pak 0) × (result ≤ 90) }
{
    let bodies = count(form, pak);
    match form {
        Form::One => FIRST_ENTRY_ONE + ENTRY_ONE_BYTES * bodies,
        Form::Two => FIRST_ENTRY_TWO + ENTRY_TWO_BYTES * bodies,
    }
}

// The length of a file.
pub fn file_length(form: Form, pak: usize) -> usize
    requires { pak ≤ 16777216 }
    ensures { result ≡ file_length_of form pak }
{
    first(form, pak) + PAK_AT + pak + last_bytes(form)
}
