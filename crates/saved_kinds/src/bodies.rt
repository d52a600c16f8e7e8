// Whether a body is one that a writer makes for some accepted state, and the same of a whole file. WRAM, VRAM and pak
// RAM are free.
ghost use Rattle.std.specs.Prelude.{◌≡◌, ◌+◌, ◌≤◌, length};
ghost use Rattle.saved_layout.specs.Layout.{file_length_of};
ghost use Rattle.saved_layout.specs.declared.Form.TheVariants.{One, Two};
ghost use Rattle.saved_kinds.specs.Kinds.{processor_body_ok, drawing_body_ok, hardware_from, hardware_body_ok};
ghost use Rattle.saved_kinds.specs.Kinds.{file_ok};
ghost use Rattle.saved_kinds.specs.inner.Records.{records_ok};

use bus_timer::TimerLines;
use saved_bytes::numbers;
use saved_layout::places::{DRAWING_AT, HARDWARE_BYTES, PAK_AT, REST_AT, WRAM_AT};
use saved_layout::{Form, contents, places};

// Kind 1.
pub fn processor_ok(body: &[u8]) -> bool
    requires { length body.now ≡ 172 }
    ensures { result ≡ processor_body_ok body.now }
{
    let mut regs = [0u32; 32];
    let mut rest = [0u32; 11];
    numbers::take_words(body, 0, &mut regs);
    numbers::take_words(body, REST_AT, &mut rest);
    if 2 < rest[10] {
        return false;
    }
    let sys = [
        rest[1], rest[2], rest[3], rest[4], rest[5], rest[7], rest[8], rest[9],
    ];
    processor::acceptance::state_ok(&regs, &sys, rest[0], rest[6])
}

// Kind 2.
pub fn drawing_ok(body: &[u8]) -> bool
    requires { length body.now ≡ 26 }
    ensures { result ≡ drawing_body_ok body.now }
{
    let mut halves = [0u16; 13];
    numbers::take_halves(body, 0, &mut halves);
    bus::refusals::drawing_ok(&halves)
}

// The request lines and the timer of kind 6.
pub fn hardware(body: &[u8]) -> TimerLines
    requires { length body.now ≡ 8 }
    ensures { result ≡ hardware_from body.now }
{
    TimerLines {
        lines: word::half_at(body, 0) as u16,
        count: word::half_at(body, 2) as u16,
        reload: word::half_at(body, 4) as u16,
        control: word::half_at(body, 6) as u16,
    }
}

// Kind 6.
pub fn hardware_ok(body: &[u8]) -> bool
    requires { length body.now ≡ 8 }
    ensures { result ≡ hardware_body_ok body.now }
{
    hardware(body).is_ok()
}

// Kinds 1 and 2, which start at byte `at`.
fn records_ok(file: &[u8], at: usize) -> bool
    requires { at + 198 ≤ length file.now }
    ensures { result ≡ records_ok at file.now }
{
    let middle = at + DRAWING_AT;
    let end = at + WRAM_AT;
    if !processor_ok(&file[at..middle]) {
        return false;
    }
    drawing_ok(&file[middle..end])
}

// Whether a file of the due length is one that the writer of its form makes.
pub fn file_ok(form: Form, file: &[u8], pak: usize) -> bool
    requires { (length file.now ≡ file_length_of form pak) × (pak ≤ 16777216) }
    ensures { result ≡ file_ok form pak file.now }
{
    if !contents::ok(form, file, pak) {
        return false;
    }
    let at = places::first(form, pak);
    if !records_ok(file, at) {
        return false;
    }
    match form {
        Form::One => true,
        Form::Two => {
            let last = at + PAK_AT + pak;
            let end = last + HARDWARE_BYTES;
            hardware_ok(&file[last..end])
        }
    }
}
