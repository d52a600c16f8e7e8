// What each instruction does: `next` is the address of the following one.
ghost use Rattle.std.specs.Prelude.{◌≡◌};
ghost use Rattle.bus.specs.Memories.{held_by, SameLoans};
ghost use Rattle.processor_machine.specs.State.{state_of, leaves};
ghost use Rattle.processor_execute.specs.Execute.{execute_of};

use crate::memory::Access;
use crate::{compute, control, floating, jump, memory};
use bus::memories::Memories;
use processor_decode::Instruction;
use processor_machine::{Control, Mode};

pub fn execute(
    memories: &mut Memories<'_>,
    regs: &mut [u32; 32],
    sys: &mut [u32; 8],
    i: Instruction,
    pc: u32,
    next: u32,
    psw: u32,
) -> Control
    ensures done { leaves regs.new sys.new result (held_by memories.new)
        ≡ execute_of i next (state_of regs.old sys.old pc psw Mode.Running)
        (held_by memories.old) }
    ensures same { SameLoans memories.old memories.new }
{
    match i {
        Instruction::Register(op, reg1, reg2) => compute::register(regs, op, reg1, reg2, next, psw),
        Instruction::Mul(reg1, reg2) => compute::mul(regs, reg1, reg2, next, psw),
        Instruction::Div(reg1, reg2) => compute::div(regs, sys, reg1, reg2, pc, next, psw),
        Instruction::Mulu(reg1, reg2) => compute::mulu(regs, reg1, reg2, next, psw),
        Instruction::Divu(reg1, reg2) => compute::divu(regs, sys, reg1, reg2, pc, next, psw),
        Instruction::Jmp(reg1) => jump::jmp(regs, reg1, psw),
        Instruction::Immediate(op, imm, reg2) => compute::immediate(regs, op, imm, reg2, next, psw),
        Instruction::Setf(cond, reg2) => compute::setf(regs, cond, reg2, next, psw),
        Instruction::Cli => control::cli(next, psw),
        Instruction::Sei => control::sei(next, psw),
        Instruction::Trap(vector) => control::trap(sys, vector, pc, next, psw),
        Instruction::Reti => control::reti(sys, psw),
        Instruction::Halt => control::halt(next, psw),
        Instruction::Ldsr(reg2, id) => control::ldsr(regs, sys, reg2, id, next, psw),
        Instruction::Stsr(id, reg2) => control::stsr(regs, sys, id, reg2, next, psw),
        Instruction::Bcond(cond, disp) => jump::bcond(cond, disp, pc, next, psw),
        Instruction::Jr(disp) => jump::jr(disp, pc, psw),
        Instruction::Jal(disp) => jump::jal(regs, disp, pc, psw),
        Instruction::Long(op, imm, reg1, reg2) => compute::long(
            regs, op, imm, reg1, reg2, next, psw,
        ),
        Instruction::Load(width, disp, reg1, reg2) => memory::load(
            memories,
            regs,
            Access {
                width,
                disp,
                reg1,
                reg2,
            },
            next,
            psw,
        ),
        Instruction::In(width, disp, reg1, reg2) => memory::input(
            memories,
            regs,
            Access {
                width,
                disp,
                reg1,
                reg2,
            },
            next,
            psw,
        ),
        Instruction::Store(width, disp, reg1, reg2) => memory::store(
            memories,
            regs,
            Access {
                width,
                disp,
                reg1,
                reg2,
            },
            next,
            psw,
        ),
        Instruction::Out(width, disp, reg1, reg2) => memory::store(
            memories,
            regs,
            Access {
                width,
                disp,
                reg1,
                reg2,
            },
            next,
            psw,
        ),
        Instruction::Illegal => control::illegal(sys, pc, next, psw),
        Instruction::Cmpf(reg1, reg2) => floating::cmpf(regs, sys, reg1, reg2, pc, next, psw),
        Instruction::Floating(op, reg1, reg2) => floating::floating(
            regs, sys, op, reg1, reg2, pc, next, psw,
        ),
        Instruction::Nintendo(op, reg1, reg2) => floating::nintendo(
            regs, op, reg1, reg2, next, psw,
        ),
    }
}
