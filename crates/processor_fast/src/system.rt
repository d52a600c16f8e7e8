// STSR, LDSR (not of PSW), SEI and CLI, which read or change the system registers or PSW above its flags. CLI is left
// to the step where an interrupt is accepted after it.
ghost use Rattle.std.specs.Prelude.{ℕ, List, slice_index, Some};
ghost use Rattle.bus.specs.TimerLines.{lines_place};
ghost use Rattle.processor_decode.specs.Format as format;
ghost use Rattle.processor_decode.specs.declared.Instruction as instruction;
ghost use Rattle.processor_fast.specs.inner.Turns.{Controls};

use bus::{Device, LINES_PLACE};
use processor_arithmetic::flag;
use processor_fast_compute::Fast;
use processor_fast_compute::field::{after_one, reg2};
use processor_interrupt::acceptance::accepts;
use processor_lazy_flags::{Flags, status};
use processor_machine::register::put;
use processor_machine::{Mode, system};

pub fn stsr(regs: &mut [u32; 32], sys: &[u32; 8], f: u32, x: u32, psw: u32, flags: Flags) -> Fast
    ensures { (lines : ℕ)
        → Controls lines (format.stsr f) result x psw flags regs.old sys.now
        regs.new sys.now }
{
    let id = f % 32;
    if id == 24 {
        return Fast::NotHere;
    }
    let v = system::read(sys, status::packed(psw, flags), id);
    put(regs, f / 32 % 32, v);
    Fast::Done {
        x: after_one(x),
        addition: flags.addition,
        value: flags.value,
    }
}

pub fn ldsr(regs: &[u32; 32], sys: &mut [u32; 8], f: u32, x: u32, psw: u32, flags: Flags) -> Fast
    ensures { (lines : ℕ)
        → Controls lines (format.ldsr f) result x psw flags regs.now sys.old
        regs.now sys.new }
{
    let id = f % 32;
    if id == 24 {
        return Fast::NotHere;
    }
    if id == 5 {
        return Fast::NotHere;
    }
    let v = reg2(regs, f);
    let _ = system::write(sys, status::packed(psw, flags), id, v);
    Fast::Done {
        x: after_one(x),
        addition: flags.addition,
        value: flags.value,
    }
}

pub fn sei(x: u32, psw: u32, flags: Flags) -> Fast
    ensures { (lines : ℕ) (regs sys : List ℕ)
        → Controls lines (Some instruction.Instruction.Sei) result x psw flags regs sys regs sys }
{
    Fast::Masked {
        psw: flag::set_id(psw),
    }
}

pub fn cli(device: &Device, x: u32, psw: u32, flags: Flags) -> Fast
    ensures { (regs sys : List ℕ)
        → Controls (slice_index device.now lines_place)
        (Some instruction.Instruction.Cli) result x psw flags regs sys regs sys }
{
    let p = flag::clear_id(psw);
    if accepts(device[LINES_PLACE], p, Mode::Running) {
        return Fast::NotHere;
    }
    Fast::Masked { psw: p }
}
