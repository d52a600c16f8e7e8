// Loads and stores.
ghost use Rattle.std.specs.Prelude.{◌≡◌};
ghost use Rattle.word.specs.Width.{bytes_of};
ghost use Rattle.refusal.specs.Number.{verdict_number};
ghost use Rattle.bus.specs.Memory.{verdict_of, store_of};
ghost use Rattle.bus.specs.Lent.{entering_with, leaving_with};
ghost use Rattle.bus.specs.TimerLines.{device_of};
ghost use Rattle.bus_calls.specs.Access.{checked_load_of, checked_store_of};
ghost use Rattle.capi_bus.specs.TimerLines.{hardware_given};
ghost use Rattle.capi_bus.specs.Answers.{drawing_given, drawing_out, load_out, store_out};

use crate::hardware::VbHardware;
use bus::Drawing;
use bus_calls::{Reading, Stored};
use bus_timer::TimerLines;
use refusal::Refusal;
use word::Width;

// The drawing registers: SPT0 to SPT3, GPLT0 to GPLT3, JPLT0 to JPLT3, BKCOL.
#[repr(C)]
#[derive(Clone, Copy)]
pub struct VbDrawing {
    pub regs: bus::DrawingRegisters,
}

// Bit k of `undefined` is set where byte k, counted from the aligned address, was read and is undefined.
#[repr(C)]
#[derive(Clone, Copy)]
pub struct VbLoaded {
    pub refusal: u32,
    pub value: u32,
    pub undefined: u32,
}

#[repr(C)]
#[derive(Clone, Copy)]
pub struct VbStored {
    pub refusal: u32,
    pub drawing: VbDrawing,
    pub hardware: VbHardware,
}

impl From<VbDrawing> for Drawing {
    ghost from_gives = { λ given drawing. drawing ≡ drawing_given given };

    fn from(given: VbDrawing) -> Drawing {
        let regs = given.regs;
        Drawing { regs }
    }
}

impl From<Drawing> for VbDrawing {
    ghost from_gives = { λ drawing given. given ≡ drawing_out drawing };

    fn from(drawing: Drawing) -> VbDrawing {
        let regs = drawing.regs;
        VbDrawing { regs }
    }
}

// A load's answer at the boundary.
impl From<Result<Reading, Refusal>> for VbLoaded {
    ghost from_gives = { λ answer loaded. loaded ≡ load_out answer };

    fn from(answer: Result<Reading, Refusal>) -> VbLoaded {
        match answer {
            Ok(l) => VbLoaded {
                refusal: 0,
                value: l.value,
                undefined: l.undefined,
            },
            Err(refusal) => VbLoaded {
                refusal: u32::from(refusal),
                value: 0,
                undefined: 0,
            },
        }
    }
}

// A store's answer at the boundary: where it was refused, both records are those given.
pub(crate) fn stored(
    drawing: VbDrawing,
    hardware: VbHardware,
    answer: Result<Stored, Refusal>,
) -> VbStored
    ensures { result ≡ store_out drawing hardware answer }
{
    match answer {
        Ok(s) => VbStored {
            refusal: 0,
            drawing: VbDrawing::from(s.drawing),
            hardware: VbHardware::from(s.hardware),
        },
        Err(n) => VbStored {
            refusal: u32::from(n),
            drawing,
            hardware,
        },
    }
}

// A load, compiled in each export that calls it, where the width is known.
#[inline(always)]
pub fn load(
    rom: &[u8],
    wram: &[u8],
    vram: &[u8],
    pak: &[u8],
    drawing: VbDrawing,
    hardware: VbHardware,
    width: Width,
    address: u32,
) -> VbLoaded
    ensures { result ≡ load_out
        (checked_load_of (entering_with rom.now wram.now vram.now pak.now (device_of drawing.regs (hardware_given hardware))) (bytes_of width) address) }
{
    let regs = Drawing::from(drawing);
    let timer = TimerLines::from(hardware);
    VbLoaded::from(bus_calls::load(rom, wram, vram, pak, regs, timer, width, address))
}

// A store, likewise.
#[inline(always)]
pub fn store(
    rom: &[u8],
    wram: &mut [u8],
    vram: &mut [u8],
    pak: &mut [u8],
    drawing: VbDrawing,
    hardware: VbHardware,
    width: Width,
    address: u32,
    value: u32,
) -> VbStored
    ensures refusal { result.refusal ≡ verdict_number
        (verdict_of (entering_with rom.now wram.old vram.old pak.old (device_of drawing.regs (hardware_given hardware)))) }
    ensures memory { let m = entering_with rom.now wram.old vram.old pak.old (device_of drawing.regs (hardware_given hardware)) in
        leaving_with rom.now wram.new vram.new pak.new (device_of result.drawing.regs (hardware_given result.hardware))
        ≡ checked_store_of m (store_of m (bytes_of width) address value) }
{
    let regs = Drawing::from(drawing);
    let timer = TimerLines::from(hardware);
    let answer = bus_calls::store(rom, wram, vram, pak, regs, timer, width, address, value);
    stored(drawing, hardware, answer)
}
