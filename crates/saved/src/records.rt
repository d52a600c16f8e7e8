// The records of a machine as the words and halfwords of a file.
ghost use Rattle.std.specs.Prelude.{◌≡◌, ◌≤◌, length};
ghost use Rattle.saved_layout.specs.Layout.{file_length_of};
ghost use Rattle.saved_layout.specs.File.{bodies_in};
ghost use Rattle.saved_kinds.specs.Kinds.{general_from, rest_from, drawing_from, hardware_from};
ghost use Rattle.saved.specs.Body.{lines_of, restored_processor_of, processor_in_bodies};
ghost use Rattle.saved.specs.Calls.{form_holds};

use bus::DrawingRegisters;
use bus_timer::TimerLines;
use processor::Processor;
use saved_bytes::numbers;
use saved_kinds::words;
use saved_layout::places::{
    DRAWING_AT, DRAWING_BYTES, HARDWARE_BYTES, PAK_AT, PROCESSOR_BYTES, REST_AT,
};
use saved_layout::{Form, places};

// The four halfwords of lines and timer.
pub fn lines(h: TimerLines) -> [u16; 4]
    ensures { result ≡ lines_of h }
{
    [h.lines, h.count, h.reload, h.control]
}

// Whether a form holds these four halfwords: form 1 only zeros.
pub fn holds(form: Form, lines: [u16; 4]) -> bool
    ensures { result ≡ form_holds form lines }
{
    match form {
        Form::Two => true,
        Form::One => {
            if lines[0] != 0 {
                return false;
            }
            if lines[1] != 0 {
                return false;
            }
            if lines[2] != 0 {
                return false;
            }
            lines[3] == 0
        }
    }
}

// The record of the general registers, the eleven words, and lines and timer.
fn processor_of(regs: [u32; 32], rest: [u32; 11], hardware: TimerLines) -> Processor
    ensures { result ≡ restored_processor_of regs rest hardware }
{
    let mode = words::mode_of(rest[10]);
    Processor {
        regs,
        pc: rest[0],
        eipc: rest[1],
        eipsw: rest[2],
        fepc: rest[3],
        fepsw: rest[4],
        ecr: rest[5],
        psw: rest[6],
        sr25: rest[7],
        sr29: rest[8],
        sr31: rest[9],
        mode,
        hardware,
    }
}

// The record of a body of kind 1.
fn processor(body: &[u8], hardware: TimerLines) -> Processor
    requires { length body.now ≡ 172 }
    ensures { result ≡ restored_processor_of (general_from body.now) (rest_from body.now) hardware }
{
    let mut regs = [0u32; 32];
    let mut rest = [0u32; 11];
    numbers::take_words(body, 0, &mut regs);
    numbers::take_words(body, REST_AT, &mut rest);
    processor_of(regs, rest, hardware)
}

// The lines and the timer that a file holds: at reset in form 1.
fn hardware(form: Form, file: &[u8], pak: usize) -> TimerLines
    requires { (length file.now ≡ file_length_of form pak) × (pak ≤ 16777216) }
    ensures { result ≡ hardware_from (bodies_in form pak file.now).hardware }
{
    match form {
        Form::One => TimerLines::reset(),
        Form::Two => {
            let last = places::first(Form::Two, pak) + PAK_AT + pak;
            let end = last + HARDWARE_BYTES;
            saved_kinds::bodies::hardware(&file[last..end])
        }
    }
}

// The record that a file of the due length holds.
pub fn held(form: Form, file: &[u8], pak: usize) -> Processor
    requires { (length file.now ≡ file_length_of form pak) × (pak ≤ 16777216) }
    ensures { result ≡ processor_in_bodies (bodies_in form pak file.now) }
{
    let at = places::first(form, pak);
    let end = at + PROCESSOR_BYTES;
    processor(&file[at..end], hardware(form, file, pak))
}

// The drawing registers that it holds.
pub fn drawing(form: Form, file: &[u8], pak: usize) -> DrawingRegisters
    requires { (length file.now ≡ file_length_of form pak) × (pak ≤ 16777216) }
    ensures { result ≡ drawing_from (bodies_in form pak file.now).drawing }
{
    let at = places::first(form, pak) + DRAWING_AT;
    let end = at + DRAWING_BYTES;
    let mut halves = [0u16; 13];
    numbers::take_halves(&file[at..end], 0, &mut halves);
    halves
}
