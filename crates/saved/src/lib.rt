// Saved states: a machine written into the caller's output buffer (paper 02: "room") in either form, and read back
// from a file of either.
#![tactic(auto)]

mod records;

ghost use Rattle.std.specs.Prelude.{[], ◌≡◌, ◌≤◌, length};
ghost use Rattle.bus.specs.Refusal.{vram_bytes};
ghost use Rattle.bus.specs.Memory.{memory_of};
ghost use Rattle.bus.specs.Lent.{entering_with, leaving_with};
ghost use Rattle.saved_layout.specs.Layout.{file_length_of};
ghost use Rattle.saved_layout.specs.declared.Form.TheVariants.{One, Two};
ghost use Rattle.saved.specs.Calls.{state_file_of, write_verdict_of, written_output_of, restored_of, read_back_of};

use bus::Drawing;
use processor::Processor;
use refusal::Refusal;
use saved_kinds::{bodies, lengths};
use saved_layout::{Form, places};

// Whether a read was refused, and both records afterwards.
#[derive(Clone, Copy)]
pub struct Restored {
    pub verdict: Result<(), Refusal>,
    pub processor: Processor,
    pub drawing: Drawing,
}

// The file of a machine into a buffer of its length.
fn put(
    form: Form,
    wram: &[u8],
    vram: &[u8],
    pak: &[u8],
    processor: Processor,
    drawing: Drawing,
    output: &mut [u8],
)
    requires wram_len { (length wram.now ≡ 65536) × ((length vram.now ≡ vram_bytes) × (length pak.now ≤ 16777216)) }
    requires output_len { length output.old ≡ file_length_of form (length pak.now) }
    ensures { output.new ≡ state_file_of form processor
        (memory_of [] wram.now vram.now pak.now drawing.regs) }
{
    let regs = processor.regs;
    let rest = saved_kinds::words::rest(processor);
    let halves = drawing.regs;
    let lines = records::lines(processor.hardware);
    saved_layout::bodies::write(form, output, &regs, &rest, &halves, wram, vram, pak, &lines);
}

// A machine into the output buffer.
fn write_form(
    form: Form,
    rom: &[u8],
    wram: &[u8],
    vram: &[u8],
    pak: &[u8],
    processor: Processor,
    drawing: Drawing,
    output: &mut [u8],
) -> Result<(), Refusal>
    ensures verdict { result ≡ write_verdict_of form processor (entering_with rom.now wram.now vram.now pak.now drawing.regs) output.old }
    ensures output { output.new
        ≡ written_output_of form processor (entering_with rom.now wram.now vram.now pak.now drawing.regs) output.old }
{
    match processor::calls::verdict(rom, wram, vram, pak, processor, drawing) {
        Err(n) => Err(n),
        Ok(()) => {
            if output.len() != places::file_length(form, pak.len()) {
                return Err(Refusal::FileLength);
            }
            if !records::holds(form, records::lines(processor.hardware)) {
                return Err(Refusal::NotAtReset);
            }
            put(form, wram, vram, pak, processor, drawing, output);
            Ok(())
        }
    }
}

// A machine into the output buffer, in form 1.
pub fn write(
    rom: &[u8],
    wram: &[u8],
    vram: &[u8],
    pak: &[u8],
    processor: Processor,
    drawing: Drawing,
    output: &mut [u8],
) -> Result<(), Refusal>
    ensures verdict { result ≡ write_verdict_of One processor (entering_with rom.now wram.now vram.now pak.now drawing.regs) output.old }
    ensures output { output.new
        ≡ written_output_of One processor (entering_with rom.now wram.now vram.now pak.now drawing.regs) output.old }
{
    write_form(Form::One, rom, wram, vram, pak, processor, drawing, output)
}

// A machine into the output buffer, in form 2.
pub fn write_2(
    rom: &[u8],
    wram: &[u8],
    vram: &[u8],
    pak: &[u8],
    processor: Processor,
    drawing: Drawing,
    output: &mut [u8],
) -> Result<(), Refusal>
    ensures verdict { result ≡ write_verdict_of Two processor (entering_with rom.now wram.now vram.now pak.now drawing.regs) output.old }
    ensures output { output.new
        ≡ written_output_of Two processor (entering_with rom.now wram.now vram.now pak.now drawing.regs) output.old }
{
    write_form(Form::Two, rom, wram, vram, pak, processor, drawing, output)
}

// A machine from a file of either form: WRAM, VRAM, pak RAM and both records. The whole file is tested before a byte is
// stored.
pub fn read(
    rom: &[u8],
    wram: &mut [u8],
    vram: &mut [u8],
    pak: &mut [u8],
    processor: Processor,
    drawing: Drawing,
    file: &[u8],
) -> Restored
    ensures { restored_of result.verdict result.processor (leaving_with rom.now wram.new vram.new pak.new result.drawing.regs)
        ≡ read_back_of processor (entering_with rom.now wram.old vram.old pak.old drawing.regs) file.now }
{
    match processor::calls::verdict(rom, wram, vram, pak, processor, drawing) {
        Err(n) => Restored {
            verdict: Err(n),
            processor,
            drawing,
        },
        Ok(()) => {
            let length = pak.len();
            let form = lengths::form_of(file);
            if file.len() != places::file_length(form, length) {
                return Restored {
                    verdict: Err(Refusal::FileLength),
                    processor,
                    drawing,
                };
            }
            if !bodies::file_ok(form, file, length) {
                return Restored {
                    verdict: Err(Refusal::FileBytes),
                    processor,
                    drawing,
                };
            }
            let state = records::held(form, file, length);
            let halves = records::drawing(form, file, length);
            saved_layout::bodies::take_memories(form, file, wram, vram, pak);
            Restored {
                verdict: Ok(()),
                processor: state,
                drawing: Drawing { regs: halves },
            }
        }
    }
}
