// Loads and stores.
ghost use Rattle.std.specs.Prelude.{◌≡◌};
ghost use Rattle.refusal.specs.Number.{verdict_number};
ghost use Rattle.bus.specs.Memory.{verdict_of, store_of};
ghost use Rattle.bus.specs.Lent.{entering_with, leaving_with};
ghost use Rattle.bus.specs.TimerLines.{device_of};
ghost use Rattle.bus_calls.specs.Access.{checked_load_of, checked_store_of};
ghost use Rattle.capi_bus.specs.TimerLines.{hardware_given};
ghost use Rattle.capi_bus.specs.Answers.{load_out};

use capi_bus::accesses;
use capi_bus::accesses::{VbDrawing, VbLoaded, VbStored};
use capi_bus::hardware::VbHardware;
use word::Width;

#[unsafe(no_mangle)]
pub extern "C" fn vb_load_byte(
    rom: &[u8],
    wram: &[u8],
    vram: &[u8],
    pak: &[u8],
    drawing: VbDrawing,
    hardware: VbHardware,
    address: u32,
) -> VbLoaded
    ensures { result ≡ load_out
        (checked_load_of (entering_with rom.now wram.now vram.now pak.now (device_of drawing.regs (hardware_given hardware))) 1 address) }
{
    accesses::load(
        rom,
        wram,
        vram,
        pak,
        drawing,
        hardware,
        Width::Byte,
        address,
    )
}

#[unsafe(no_mangle)]
pub extern "C" fn vb_load_half(
    rom: &[u8],
    wram: &[u8],
    vram: &[u8],
    pak: &[u8],
    drawing: VbDrawing,
    hardware: VbHardware,
    address: u32,
) -> VbLoaded
    ensures { result ≡ load_out
        (checked_load_of (entering_with rom.now wram.now vram.now pak.now (device_of drawing.regs (hardware_given hardware))) 2 address) }
{
    accesses::load(
        rom,
        wram,
        vram,
        pak,
        drawing,
        hardware,
        Width::Half,
        address,
    )
}

#[unsafe(no_mangle)]
pub extern "C" fn vb_load_word(
    rom: &[u8],
    wram: &[u8],
    vram: &[u8],
    pak: &[u8],
    drawing: VbDrawing,
    hardware: VbHardware,
    address: u32,
) -> VbLoaded
    ensures { result ≡ load_out
        (checked_load_of (entering_with rom.now wram.now vram.now pak.now (device_of drawing.regs (hardware_given hardware))) 4 address) }
{
    accesses::load(
        rom,
        wram,
        vram,
        pak,
        drawing,
        hardware,
        Width::Word,
        address,
    )
}

#[unsafe(no_mangle)]
pub extern "C" fn vb_store_byte(
    rom: &[u8],
    wram: &mut [u8],
    vram: &mut [u8],
    pak: &mut [u8],
    drawing: VbDrawing,
    hardware: VbHardware,
    address: u32,
    value: u32,
) -> VbStored
    ensures refusal { result.refusal ≡ verdict_number
        (verdict_of (entering_with rom.now wram.old vram.old pak.old (device_of drawing.regs (hardware_given hardware)))) }
    ensures memory { let m = entering_with rom.now wram.old vram.old pak.old (device_of drawing.regs (hardware_given hardware)) in
        leaving_with rom.now wram.new vram.new pak.new (device_of result.drawing.regs (hardware_given result.hardware))
        ≡ checked_store_of m (store_of m 1 address value) }
{
    let b = Width::Byte;
    accesses::store(rom, wram, vram, pak, drawing, hardware, b, address, value)
}

#[unsafe(no_mangle)]
pub extern "C" fn vb_store_half(
    rom: &[u8],
    wram: &mut [u8],
    vram: &mut [u8],
    pak: &mut [u8],
    drawing: VbDrawing,
    hardware: VbHardware,
    address: u32,
    value: u32,
) -> VbStored
    ensures refusal { result.refusal ≡ verdict_number
        (verdict_of (entering_with rom.now wram.old vram.old pak.old (device_of drawing.regs (hardware_given hardware)))) }
    ensures memory { let m = entering_with rom.now wram.old vram.old pak.old (device_of drawing.regs (hardware_given hardware)) in
        leaving_with rom.now wram.new vram.new pak.new (device_of result.drawing.regs (hardware_given result.hardware))
        ≡ checked_store_of m (store_of m 2 address value) }
{
    let h = Width::Half;
    accesses::store(rom, wram, vram, pak, drawing, hardware, h, address, value)
}

#[unsafe(no_mangle)]
pub extern "C" fn vb_store_word(
    rom: &[u8],
    wram: &mut [u8],
    vram: &mut [u8],
    pak: &mut [u8],
    drawing: VbDrawing,
    hardware: VbHardware,
    address: u32,
    value: u32,
) -> VbStored
    ensures refusal { result.refusal ≡ verdict_number
        (verdict_of (entering_with rom.now wram.old vram.old pak.old (device_of drawing.regs (hardware_given hardware)))) }
    ensures memory { let m = entering_with rom.now wram.old vram.old pak.old (device_of drawing.regs (hardware_given hardware)) in
        leaving_with rom.now wram.new vram.new pak.new (device_of result.drawing.regs (hardware_given result.hardware))
        ≡ checked_store_of m (store_of m 4 address value) }
{
    let w = Width::Word;
    accesses::store(rom, wram, vram, pak, drawing, hardware, w, address, value)
}
