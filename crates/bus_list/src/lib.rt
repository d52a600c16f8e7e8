// A list of accesses made in one call (paper 02, W7). The caller gives it as bytes, 20 an access: five little-endian
// words, address, size, write, value and undefined. Refusals are tested once, before any access.
#![tactic(auto)]

ghost use Rattle.std.specs.Prelude.{◌≡◌, true, ◌+◌, ◌*◌, ◌<◌, ◌≤◌, length};
ghost use Rattle.bus.specs.TimerLines.{device_of};
ghost use Rattle.word.specs.Width.{bytes_of};
ghost use Rattle.bus.specs.Memory.{Lengths, load_of, size_ok};
ghost use Rattle.bus_defined.specs.Defined.{undefined_of};
ghost use Rattle.bus.specs.Lent.{entering, leaving, entering_with, leaving_with};
ghost use Rattle.bus_calls.specs.Access.{verdict_in, left_by};
ghost use Rattle.bus_list.specs.List.{count_of, size_at, answered_of, made_of, access_of, accesses_of};
ghost use Rattle.bus_list.specs.List.{sizes_ok, list_ok};
ghost use Rattle.bus_list.specs.Calls.{list_verdict_of, access_list_of};

use bus::{Device, Drawing, device, load, refusals, store};
use bus_calls::{Reading, Stored};
use bus_timer::TimerLines;
use refusal::Refusal;
use word::Width;

// Whether each of the first n accesses has the size of a width.
fn sizes_ok(list: &[u8], n: usize) -> bool
    requires { 20 * n ≤ length list.now }
    ensures { result ≡ sizes_ok n 0 list.now }
{
    for k in 0..n {
        if Width::try_from(word::word_at(list, 20 * k + 4)).is_err() {
            return false;
        }
    }
    true
}

// Whether a list is valid (refusal 11).
#[tactic(auto, unfolding(crate::specs::List::list_ok, crate::specs::List::count_of))]
fn list_ok(list: &[u8]) -> bool
    ensures { result ≡ list_ok list.now }
{
    let n = list.len() / 20;
    n <= 256 && sizes_ok(list, n)
}

// What a read gave, into the last two words of access k.
#[tactic(auto, unfolding(crate::specs::List::answered_of))]
fn put_answer(list: &mut [u8], k: usize, value: u32, undefined: u32)
    requires { 20 * k + 19 < length list.old }
    ensures { list.new ≡ answered_of list.old k value undefined }
{
    let i = 20 * k;
    word::put_word(list, i + 12, value);
    word::put_word(list, i + 16, undefined);
}

// What a read of a width gives.
#[inline(always)]
fn read(
    rom: &[u8],
    wram: &[u8],
    vram: &[u8],
    pak: &[u8],
    device: &Device,
    width: Width,
    address: u32,
) -> Reading
    requires { Lengths (length rom.now) (length wram.now) (length vram.now) (length pak.now) }
    ensures value { result.value ≡ load_of (entering rom.now wram.now vram.now pak.now device.now) (bytes_of width) address }
    ensures undefined { result.undefined ≡ undefined_of (entering rom.now wram.now vram.now pak.now device.now) (bytes_of width) address }
{
    Reading {
        value: load::load(rom, wram, vram, pak, device, width, address),
        undefined: bus_defined::undefined(width, address),
    }
}

// Access k of the list. Each width is named, so that its read and its write are compiled by themselves.
#[tactic(auto, unfolding(crate::specs::List::access_of))]
fn access(
    rom: &[u8],
    wram: &mut [u8],
    vram: &mut [u8],
    pak: &mut [u8],
    device: &mut Device,
    list: &mut [u8],
    k: usize,
)
    requires { Lengths (length rom.now) (length wram.old) (length vram.old) (length pak.old)
        × (20 * k + 19 < length list.old) × (size_ok (size_at list.old k) ≡ true) }
    ensures { made_of (leaving rom.now wram.new vram.new pak.new device.new) list.new
        ≡ access_of k (entering rom.now wram.old vram.old pak.old device.old) list.old }
{
    let i = 20 * k;
    let address = word::word_at(list, i);
    let size = word::word_at(list, i + 4);
    if word::word_at(list, i + 8) == 0 {
        let answer = match Width::try_from(size).unwrap() {
            Width::Byte => read(rom, wram, vram, pak, device, Width::Byte, address),
            Width::Half => read(rom, wram, vram, pak, device, Width::Half, address),
            Width::Word => read(rom, wram, vram, pak, device, Width::Word, address),
        };
        put_answer(list, k, answer.value, answer.undefined);
    } else {
        let value = word::word_at(list, i + 12);
        match Width::try_from(size).unwrap() {
            Width::Byte => store::store(rom, wram, vram, pak, device, Width::Byte, address, value),
            Width::Half => store::store(rom, wram, vram, pak, device, Width::Half, address, value),
            Width::Word => store::store(rom, wram, vram, pak, device, Width::Word, address, value),
        }
    }
}

// Every access of an accepted list, in order.
fn accesses(
    rom: &[u8],
    wram: &mut [u8],
    vram: &mut [u8],
    pak: &mut [u8],
    device: &mut Device,
    list: &mut [u8],
)
    requires { Lengths (length rom.now) (length wram.old) (length vram.old) (length pak.old)
        × (list_ok list.old ≡ true) }
    ensures { made_of (leaving rom.now wram.new vram.new pak.new device.new) list.new
        ≡ accesses_of (count_of list.old) 0 (entering rom.now wram.old vram.old pak.old device.old) list.old }
{
    for k in 0..list.len() / 20 {
        access(rom, wram, vram, pak, device, list, k);
    }
}

// The accesses of a list, in order: reads are answered in it.
#[tactic(auto, unfolding(crate::specs::Calls::access_list_of, crate::specs::Calls::list_verdict_at))]
pub fn access_list(
    rom: &[u8],
    wram: &mut [u8],
    vram: &mut [u8],
    pak: &mut [u8],
    drawing: Drawing,
    hardware: TimerLines,
    list: &mut [u8],
) -> Result<Stored, Refusal>
    ensures verdict { verdict_in result ≡ list_verdict_of (entering_with rom.now wram.old vram.old pak.old (device_of drawing.regs hardware)) list.old }
    ensures made { let after = left_by drawing hardware result in
        made_of (leaving_with rom.now wram.new vram.new pak.new (device_of after.drawing.regs after.hardware)) list.new
        ≡ access_list_of (entering_with rom.now wram.old vram.old pak.old (device_of drawing.regs hardware)) list.old }
{
    refusals::call_verdict(
        rom.len(),
        wram.len(),
        vram.len(),
        pak.len(),
        &drawing.regs,
        hardware,
    )?;
    if !list_ok(list) {
        return Err(Refusal::AccessList);
    }
    let mut lent = device::device_of(drawing.regs, hardware);
    accesses(rom, wram, vram, pak, &mut lent, list);
    let regs = device::drawing_in(&lent);
    Ok(Stored {
        drawing: Drawing { regs },
        hardware: device::hardware_in(&lent),
    })
}
