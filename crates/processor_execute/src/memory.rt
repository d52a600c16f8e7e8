// Load and Input, Store and Output. Each says what it does by its own case of execute_of, for every value of what it
// does not touch.
#![tactic(auto, unfolding(crate::specs::Execute::execute_of))]

ghost use Rattle.std.specs.Prelude.{◌≡◌, ◌%◌, ℕ, List, slice_index};
ghost use Rattle.bus.specs.Memories.{held_by, SameLoans};
ghost use Rattle.processor_machine.specs.State.{state_of, leaves};
ghost use Rattle.processor_execute.specs.Execute.{execute_of, plus_of};

use bus::memories::Memories;
use processor_decode::Instruction;
use processor_machine::register::{get, put};
use processor_machine::{Control, Mode};
use word::Width;

// The fields of such an instruction: reg1 and the displacement give the address, reg2 is loaded or stored.
#[derive(Clone, Copy)]
pub struct Access {
    pub width: Width,
    pub disp: u32,
    pub reg1: u32,
    pub reg2: u32,
}

impl Access {
    // The effective address.
    fn address(self, regs: &[u32; 32]) -> u32
        ensures { result ≡ plus_of (slice_index regs.now (self.reg1 % 32)) self.disp }
    {
        get(regs, self.reg1).wrapping_add(self.disp)
    }
}

// LD: sign-extended.
pub fn load(
    memories: &Memories<'_>,
    regs: &mut [u32; 32],
    access: Access,
    next: u32,
    psw: u32,
) -> Control
    ensures { (pc : ℕ) (sys : List ℕ)
        → leaves regs.new sys result (held_by memories.now)
        ≡ execute_of (Instruction.Load access.width access.disp access.reg1 access.reg2) next
        (state_of regs.old sys pc psw Mode.Running) (held_by memories.now) }
{
    let v = memories.load(access.width, access.address(regs));
    let v = match access.width {
        Width::Byte => word::extend(128, v),
        Width::Half => word::extend(32768, v),
        Width::Word => v,
    };
    put(regs, access.reg2, v);
    Control::ended(next, psw)
}

// IN: zero-extended.
pub fn input(
    memories: &Memories<'_>,
    regs: &mut [u32; 32],
    access: Access,
    next: u32,
    psw: u32,
) -> Control
    ensures { (pc : ℕ) (sys : List ℕ)
        → leaves regs.new sys result (held_by memories.now)
        ≡ execute_of (Instruction.In access.width access.disp access.reg1 access.reg2) next
        (state_of regs.old sys pc psw Mode.Running) (held_by memories.now) }
{
    let v = memories.load(access.width, access.address(regs));
    put(regs, access.reg2, v);
    Control::ended(next, psw)
}

// ST and OUT, of the whole register.
pub fn store(
    memories: &mut Memories<'_>,
    regs: &[u32; 32],
    access: Access,
    next: u32,
    psw: u32,
) -> Control
    ensures stores { (pc : ℕ) (sys : List ℕ)
        → leaves regs.now sys result (held_by memories.new)
        ≡ execute_of (Instruction.Store access.width access.disp access.reg1 access.reg2) next
        (state_of regs.now sys pc psw Mode.Running) (held_by memories.old) }
    ensures outputs { (pc : ℕ) (sys : List ℕ)
        → leaves regs.now sys result (held_by memories.new)
        ≡ execute_of (Instruction.Out access.width access.disp access.reg1 access.reg2) next
        (state_of regs.now sys pc psw Mode.Running) (held_by memories.old) }
    ensures same { SameLoans memories.old memories.new }
{
    memories.store(access.width, access.address(regs), get(regs, access.reg2));
    Control::ended(next, psw)
}
