// Load and Input, Store and Output, each of any width. A store that the bus does not do directly is left to the step. The
// width is known where one is called, so each is compiled there.
ghost use Rattle.std.specs.Prelude.{◌≡◌, ◌%◌, ◌<◌, true, slice_index};
ghost use Rattle.word.specs.Extend.{extend_of};
ghost use Rattle.bus.specs.Memories.{held_by, SameLoans};
ghost use Rattle.processor_decode.specs.Format as format;
ghost use Rattle.processor_decode.specs.declared.Instruction as instruction;
ghost use Rattle.processor_execute.specs.Execute.{plus_of};
ghost use Rattle.processor_execute.specs.Transfer.{loaded_of};
ghost use Rattle.processor_machine.specs.State.{put_of};
ghost use Rattle.processor_fast_compute.specs.inner.Fast.{Performs};

use bus::memories::Memories;
use processor_fast_compute::Fast;
use processor_fast_compute::field::{after_two, extend8, extend16, reg1, reg2};
use processor_lazy_flags::Flags;
use processor_machine::register::put;
use word::Width;

// The effective address.
fn address(regs: &[u32; 32], f: u32, s: u32) -> u32
    requires { s < 65536 }
    ensures { result ≡ plus_of (slice_index regs.now (f % 32 % 32)) (extend_of 32768 s) }
{
    reg1(regs, f).wrapping_add(extend16(s))
}

// A value that was read, for register n.
fn loaded(regs: &mut [u32; 32], n: u32, v: u32, x: u32, flags: Flags) -> Fast
    ensures { (regs.new ≡ put_of regs.old n v) × (result ≡ Fast.Done x flags.addition flags.value) }
{
    put(regs, n, v);
    Fast::Done {
        x,
        addition: flags.addition,
        value: flags.value,
    }
}

// What a width holds at an address, sign-extended.
#[inline(always)]
fn extended(memories: &Memories<'_>, width: Width, address: u32) -> u32
    ensures { result ≡ loaded_of (held_by memories.now) width address }
{
    let v = memories.load(width, address);
    match width {
        Width::Byte => extend8(v),
        Width::Half => extend16(v),
        Width::Word => v,
    }
}

// LD: sign-extended.
#[inline(always)]
pub fn load(
    memories: &Memories<'_>,
    width: Width,
    regs: &mut [u32; 32],
    f: u32,
    s: u32,
    x: u32,
    flags: Flags,
) -> Fast
    requires { s < 65536 }
    ensures { Performs true (format.transfer instruction.Instruction.Load width f s) result x flags
        regs.old (held_by memories.now) regs.new (held_by memories.now) }
{
    let a = address(regs, f, s);
    let v = extended(memories, width, a);
    loaded(regs, f / 32 % 32, v, after_two(x), flags)
}

// IN: zero-extended.
#[inline(always)]
pub fn input(
    memories: &Memories<'_>,
    width: Width,
    regs: &mut [u32; 32],
    f: u32,
    s: u32,
    x: u32,
    flags: Flags,
) -> Fast
    requires { s < 65536 }
    ensures { Performs true (format.transfer instruction.Instruction.In width f s) result x flags
        regs.old (held_by memories.now) regs.new (held_by memories.now) }
{
    let a = address(regs, f, s);
    let v = memories.load(width, a);
    loaded(regs, f / 32 % 32, v, after_two(x), flags)
}

// ST and OUT.
#[inline(always)]
pub fn store(
    memories: &mut Memories<'_>,
    width: Width,
    regs: &[u32; 32],
    f: u32,
    s: u32,
    x: u32,
    flags: Flags,
) -> Fast
    requires { s < 65536 }
    ensures stores { Performs true (format.transfer instruction.Instruction.Store width f s) result x flags
        regs.now (held_by memories.old) regs.now (held_by memories.new) }
    ensures outputs { Performs true (format.transfer instruction.Instruction.Out width f s) result x flags
        regs.now (held_by memories.old) regs.now (held_by memories.new) }
    ensures pak { memories.new.pak.now ≡ memories.old.pak.now }
    ensures devices { memories.new.device.now ≡ memories.old.device.now }
    ensures same { SameLoans memories.old memories.new }
{
    let a = address(regs, f, s);
    let v = reg2(regs, f);
    if !bus::store::direct(memories.wram, memories.vram, width, a, v) {
        return Fast::NotHere;
    }
    Fast::Done {
        x: after_two(x),
        addition: flags.addition,
        value: flags.value,
    }
}
