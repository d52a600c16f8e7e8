// The record of the public calls, and the registers that are borrowed inside.
ghost use Rattle.std.specs.Prelude.{◌≡◌};
ghost use Rattle.processor.specs.Record.{system_in, processor_of};
ghost use Rattle.processor_machine.specs.State.{state_of};

use crate::Processor;
use bus::Device;
use bus::device::hardware_in;
use processor_machine::Mode;

// The stored system registers of a record, in the order of the borrowed ones.
pub fn system(p: Processor) -> [u32; 8]
    ensures { result ≡ system_in p }
{
    [
        p.eipc, p.eipsw, p.fepc, p.fepsw, p.ecr, p.sr25, p.sr29, p.sr31,
    ]
}

// The record of the borrowed registers, PC, PSW, the mode and the device registers.
pub fn joined(
    regs: [u32; 32],
    sys: [u32; 8],
    pc: u32,
    psw: u32,
    mode: Mode,
    device: &Device,
) -> Processor
    ensures { result ≡ processor_of (state_of regs sys pc psw mode) device.now }
{
    let hardware = hardware_in(device);
    Processor {
        regs,
        pc,
        eipc: sys[0],
        eipsw: sys[1],
        fepc: sys[2],
        fepsw: sys[3],
        ecr: sys[4],
        psw,
        sr25: sys[5],
        sr29: sys[6],
        sr31: sys[7],
        mode,
        hardware,
    }
}
