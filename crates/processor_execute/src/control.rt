// CPU control: exceptions, HALT, the system registers and the interrupt disable bit. Each says what it does by its own
// case of execute_of, for every value of what it does not touch.
#![tactic(auto, unfolding(crate::specs::Execute::execute_of))]

ghost use Rattle.std.specs.Prelude.{◌≡◌, ℕ, List};
ghost use Rattle.bus.specs.Memory.{Memory};
ghost use Rattle.processor_machine.specs.State.{state_of, leaves};
ghost use Rattle.processor_execute.specs.Execute.{execute_of};

use processor_arithmetic::flag;
use processor_decode::Instruction;
use processor_machine::exception::raise;
use processor_machine::register::{get, put};
use processor_machine::{Answer, Cause, Control, Mode, system};

pub fn trap(sys: &mut [u32; 8], vector: u32, pc: u32, next: u32, psw: u32) -> Control
    ensures { (regs : List ℕ) (m : Memory)
        → leaves regs sys.new result m
        ≡ execute_of (Instruction.Trap vector) next (state_of regs sys.old pc psw Mode.Running) m }
{
    raise(sys, Cause::Trap(vector), pc, next, psw)
}

pub fn illegal(sys: &mut [u32; 8], pc: u32, next: u32, psw: u32) -> Control
    ensures { (regs : List ℕ) (m : Memory)
        → leaves regs sys.new result m
        ≡ execute_of (Instruction.Illegal) next (state_of regs sys.old pc psw Mode.Running) m }
{
    raise(sys, Cause::Illegal, pc, next, psw)
}

pub fn reti(sys: &[u32; 8], psw: u32) -> Control
    ensures { (pc next : ℕ) (regs : List ℕ) (m : Memory)
        → leaves regs sys.now result m
        ≡ execute_of Instruction.Reti next (state_of regs sys.now pc psw Mode.Running) m }
{
    if psw / 32768 % 2 == 1 {
        Control::ended(sys[2], sys[3])
    } else {
        Control::ended(sys[0], sys[1])
    }
}

pub fn halt(next: u32, psw: u32) -> Control
    ensures { (pc : ℕ) (regs sys : List ℕ) (m : Memory)
        → leaves regs sys result m ≡ execute_of Instruction.Halt next (state_of regs sys pc psw Mode.Running) m }
{
    Control {
        pc: next,
        psw,
        mode: Mode::Halted,
        answer: Answer::Ended,
    }
}

pub fn ldsr(
    regs: &[u32; 32],
    sys: &mut [u32; 8],
    reg2: u32,
    id: u32,
    next: u32,
    psw: u32,
) -> Control
    ensures { (pc : ℕ) (m : Memory)
        → leaves regs.now sys.new result m
        ≡ execute_of (Instruction.Ldsr reg2 id) next
        (state_of regs.now sys.old pc psw Mode.Running) m }
{
    let psw = system::write(sys, psw, id, get(regs, reg2));
    Control::ended(next, psw)
}

pub fn stsr(
    regs: &mut [u32; 32],
    sys: &[u32; 8],
    id: u32,
    reg2: u32,
    next: u32,
    psw: u32,
) -> Control
    ensures { (pc : ℕ) (m : Memory)
        → leaves regs.new sys.now result m
        ≡ execute_of (Instruction.Stsr id reg2) next
        (state_of regs.old sys.now pc psw Mode.Running) m }
{
    put(regs, reg2, system::read(sys, psw, id));
    Control::ended(next, psw)
}

pub fn cli(next: u32, psw: u32) -> Control
    ensures { (pc : ℕ) (regs sys : List ℕ) (m : Memory)
        → leaves regs sys result m ≡ execute_of Instruction.Cli next (state_of regs sys pc psw Mode.Running) m }
{
    Control::ended(next, flag::clear_id(psw))
}

pub fn sei(next: u32, psw: u32) -> Control
    ensures { (pc : ℕ) (regs sys : List ℕ) (m : Memory)
        → leaves regs sys result m ≡ execute_of Instruction.Sei next (state_of regs sys pc psw Mode.Running) m }
{
    Control::ended(next, flag::set_id(psw))
}
