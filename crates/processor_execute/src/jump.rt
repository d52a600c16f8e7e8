// Branches and jumps. Each says what it does by its own case of execute_of, for every value of what it does not touch.
#![tactic(auto, unfolding(crate::specs::Execute::execute_of))]

ghost use Rattle.std.specs.Prelude.{◌≡◌, ℕ, ◌%◌, List};
ghost use Rattle.bus.specs.Memory.{Memory};
ghost use Rattle.processor_machine.specs.State.{state_of, leaves, even_of};
ghost use Rattle.processor_execute.specs.Execute.{execute_of, plus_of};

use processor_arithmetic::condition;
use processor_decode::Instruction;
use processor_machine::register::{get, put};
use processor_machine::{Control, Mode};

// PC plus a displacement, bit 0 dropped.
fn target(pc: u32, disp: u32) -> u32
    ensures { result ≡ even_of (plus_of pc disp) }
{
    let t = pc.wrapping_add(disp);
    t - t % 2
}

pub fn bcond(cond: u32, disp: u32, pc: u32, next: u32, psw: u32) -> Control
    ensures { (regs sys : List ℕ) (m : Memory)
        → leaves regs sys result m ≡ execute_of (Instruction.Bcond cond disp) next (state_of regs sys pc psw Mode.Running) m }
{
    if condition::holds(cond, psw) {
        Control::ended(target(pc, disp), psw)
    } else {
        Control::ended(next, psw)
    }
}

pub fn jmp(regs: &[u32; 32], reg1: u32, psw: u32) -> Control
    ensures { (pc next : ℕ) (sys : List ℕ) (m : Memory)
        → leaves regs.now sys result m
        ≡ execute_of (Instruction.Jmp reg1) next (state_of regs.now sys pc psw Mode.Running) m }
{
    let t = get(regs, reg1);
    Control::ended(t - t % 2, psw)
}

pub fn jr(disp: u32, pc: u32, psw: u32) -> Control
    ensures { (next : ℕ) (regs sys : List ℕ) (m : Memory)
        → leaves regs sys result m ≡ execute_of (Instruction.Jr disp) next (state_of regs sys pc psw Mode.Running) m }
{
    Control::ended(target(pc, disp), psw)
}

pub fn jal(regs: &mut [u32; 32], disp: u32, pc: u32, psw: u32) -> Control
    ensures { (next : ℕ) (sys : List ℕ) (m : Memory)
        → leaves regs.new sys result m
        ≡ execute_of (Instruction.Jal disp) next (state_of regs.old sys pc psw Mode.Running) m }
{
    put(regs, 31, pc.wrapping_add(4));
    Control::ended(target(pc, disp), psw)
}
