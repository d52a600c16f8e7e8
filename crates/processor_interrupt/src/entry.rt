// The entry of an accepted interrupt.
ghost use Rattle.std.specs.Prelude.{◌≡◌, List, ℕ, ◌+◌, ◌*◌, ◌/◌, ◌<◌};
ghost use Rattle.processor_machine.specs.State.{state_of};
ghost use Rattle.processor_machine.specs.declared.Mode.{Mode};
ghost use Rattle.processor_interrupt.specs.Interrupt.{with_level_of, interrupt_code_of, interrupted_of};

use crate::Entered;
use processor_machine::Mode;

// PSW with its interrupt level replaced.
#[tactic(auto, unfolding(crate::specs::Interrupt::with_level_of))]
fn with_level(psw: u32, level: u32) -> u32
    requires { level < 16 }
    ensures { result ≡ with_level_of level psw }
{
    psw / 1048576 * 1048576 + level * 65536 + psw % 65536
}

// ECR with the code of a level in its low half, EICC.
fn cause(ecr: u32, level: u32) -> u32
    requires { level < 5 }
    ensures { result ≡ ecr / 65536 * 65536 + interrupt_code_of level }
{
    ecr / 65536 * 65536 + (0xFE00 + 16 * level)
}

// An interrupt of a level, at pc: EIPC, EIPSW and the low half of ECR are filled.
#[tactic(auto, unfolding(crate::specs::Interrupt::interrupted_of))]
pub fn enter(sys: &mut [u32; 8], level: u32, pc: u32, psw: u32) -> Entered
    requires { level < 5 }
    ensures { (regs : List ℕ) (mode : Mode)
        → state_of regs sys.new result.pc result.psw Mode.Running
        ≡ interrupted_of level (state_of regs sys.old pc psw mode) }
{
    sys[0] = pc;
    sys[1] = psw;
    sys[4] = cause(sys[4], level);
    Entered {
        pc: 0xFFFFFE00 + 16 * level,
        psw: with_level(processor_arithmetic::flag::regular(psw), level + 1),
    }
}
