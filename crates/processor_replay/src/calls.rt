// The public call. Refusals 1 to 5 and 14 are tested once, before any step.
ghost use Rattle.std.specs.Prelude.{◌≡◌};
ghost use Rattle.bus.specs.Lent.{entering_with, leaving_with};
ghost use Rattle.processor_replay.specs.Calls.{replayed_of, checked_replay_of};

use crate::{End, Replayed, records};
use bus::Drawing;
use bus::device::{device_of, drawing_in};
use bus::memories::Memories;
use processor::Processor;
use processor::record::{joined, system};
use refusal::Refusal;

// Steps the machine and compares each step with a trace.
pub fn replay(
    rom: &[u8],
    wram: &mut [u8],
    vram: &mut [u8],
    pak: &mut [u8],
    processor: Processor,
    drawing: Drawing,
    trace: &[u8],
) -> Replayed
    ensures { replayed_of result.end result.agreed result.processor (leaving_with rom.now wram.new vram.new pak.new result.drawing.regs)
        ≡ checked_replay_of processor (entering_with rom.now wram.old vram.old pak.old drawing.regs) trace.now }
{
    match processor::calls::verdict(rom, wram, vram, pak, processor, drawing) {
        Err(n) => Replayed {
            end: End::Refused(n),
            agreed: 0,
            processor,
            drawing,
        },
        Ok(()) => {
            if trace.len() % 16 != 0 {
                return Replayed {
                    end: End::Refused(Refusal::TraceLength),
                    agreed: 0,
                    processor,
                    drawing,
                };
            }
            let mut regs = processor.regs;
            let mut sys = system(processor);
            let registers = drawing.regs;
            let hardware = processor.hardware;
            let mut device = device_of(registers, hardware);
            let mode = processor.mode;
            let mut memories = Memories {
                rom,
                wram,
                vram,
                pak,
                device: &mut device,
            };
            let f = records::replay(
                &mut memories,
                &mut regs,
                &mut sys,
                processor.pc,
                processor.psw,
                mode,
                trace,
            );
            let end = f.end;
            let mode = f.mode;
            let processor = joined(regs, sys, f.pc, f.psw, mode, &device);
            let registers = drawing_in(&device);
            Replayed {
                end,
                agreed: f.agreed,
                processor,
                drawing: Drawing { regs: registers },
            }
        }
    }
}
