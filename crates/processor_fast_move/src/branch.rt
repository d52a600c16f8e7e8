// Bcond and the jumps.
ghost use Rattle.std.specs.Prelude.{◌≡◌, ℕ, ◌+◌, ◌*◌, ◌/◌, ◌%◌, ◌^◌, ◌<◌, true, false, List, Some};
ghost use Rattle.word.specs.Choose.{pick};
ghost use Rattle.word.specs.Extend.{extend_of};
ghost use Rattle.bus.specs.Memory.{Memory};
ghost use Rattle.processor_decode.specs.Format as format;
ghost use Rattle.processor_decode.specs.declared.Instruction as instruction;
ghost use Rattle.processor_fast_compute.specs.inner.Fast.{Computes, PerformsAt};

use processor_fast_compute::Fast;
use processor_fast_compute::field::{after_one, after_two, extend9, extend26, reg1};
use processor_lazy_flags::{Flags, condition};
use processor_machine::register::put;

// To the target, or on.
fn branch(taken: bool, f: u32, x: u32, flags: Flags) -> Fast
    ensures { result ≡ Fast.Done (pick taken ((x + extend_of 256 (f % 512 / 2 * 2)) % 2 ^ 32) ((x + 2) % 2 ^ 32))
        flags.addition flags.value }
{
    if taken {
        let to = std::num::wrapping_add_u32(x, extend9(f % 512 / 2 * 2));
        return Fast::Done {
            x: to,
            addition: flags.addition,
            value: flags.value,
        };
    }
    Fast::Done {
        x: after_one(x),
        addition: flags.addition,
        value: flags.value,
    }
}

// Bcond of opcode 32 + k: conditions 2 k and 2 k + 1, by bit 9. With a constant k the compiler leaves only their tests.
pub fn conditional(k: u32, f: u32, x: u32, flags: Flags) -> Fast
    requires { (k < 8) × (f / 1024 ≡ 32 + k) }
    ensures { (regs : List ℕ) → Computes false (format.branch f) result x flags regs regs }
{
    if f / 512 % 2 == 0 {
        return branch(condition::holds(2 * k, flags), f, x, flags);
    }
    branch(condition::holds(2 * k + 1, flags), f, x, flags)
}

pub fn jmp(regs: &[u32; 32], base: u32, f: u32, x: u32, flags: Flags) -> Fast
    ensures { (m : Memory)
        → PerformsAt base false (Some (instruction.Instruction.Jmp (f % 32))) result x flags
        regs.now m regs.now m }
{
    let t = reg1(regs, f);
    let to = std::num::wrapping_sub_u32(t - t % 2, base);
    Fast::Done {
        x: to,
        addition: flags.addition,
        value: flags.value,
    }
}

// Index x plus the displacement.
fn target(f: u32, s: u32, x: u32) -> u32
    requires { s < 65536 }
    ensures { result ≡ (x + format.disp_of f s) % 2 ^ 32 }
{
    let disp = extend26(f % 1024 * 65536 + s / 2 * 2);
    std::num::wrapping_add_u32(x, disp)
}

pub fn jr(f: u32, s: u32, x: u32, flags: Flags) -> Fast
    requires { s < 65536 }
    ensures { (regs : List ℕ)
        → Computes true (Some (instruction.Instruction.Jr (format.disp_of f s))) result x flags regs regs }
{
    let to = target(f, s, x);
    Fast::Done {
        x: to,
        addition: flags.addition,
        value: flags.value,
    }
}

pub fn jal(regs: &mut [u32; 32], base: u32, f: u32, s: u32, x: u32, flags: Flags) -> Fast
    requires { s < 65536 }
    ensures { (m : Memory)
        → PerformsAt base true (Some (instruction.Instruction.Jal (format.disp_of f s))) result x flags
        regs.old m regs.new m }
{
    let link = std::num::wrapping_add_u32(base, after_two(x));
    put(regs, 31, link);
    let to = target(f, s, x);
    Fast::Done {
        x: to,
        addition: flags.addition,
        value: flags.value,
    }
}
