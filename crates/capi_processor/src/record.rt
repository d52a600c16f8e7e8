// The processor's record at the boundary.
ghost use Rattle.std.specs.Prelude.{◌≡◌};
ghost use Rattle.capi_processor.specs.Record.{processor_in, processor_out};

use bus_timer::TimerLines;
use capi_bus::hardware::VbHardware;
use processor::Processor;
use saved_kinds::words;

// The processor's record; mode is 0 running, 1 halted, 2 fatal. The request lines and the timer are its last member.
#[repr(C)]
#[derive(Clone, Copy)]
pub struct VbProcessor {
    pub regs: [u32; 32],
    pub pc: u32,
    pub eipc: u32,
    pub eipsw: u32,
    pub fepc: u32,
    pub fepsw: u32,
    pub ecr: u32,
    pub psw: u32,
    pub sr25: u32,
    pub sr29: u32,
    pub sr31: u32,
    pub mode: u32,
    pub hardware: VbHardware,
}

pub fn processor_in(p: VbProcessor) -> Processor
    ensures { result ≡ processor_in p }
{
    let regs = p.regs;
    let mode = words::mode_of(p.mode);
    let hardware = TimerLines::from(p.hardware);
    Processor {
        regs,
        pc: p.pc,
        eipc: p.eipc,
        eipsw: p.eipsw,
        fepc: p.fepc,
        fepsw: p.fepsw,
        ecr: p.ecr,
        psw: p.psw,
        sr25: p.sr25,
        sr29: p.sr29,
        sr31: p.sr31,
        mode,
        hardware,
    }
}

pub fn processor_out(p: Processor) -> VbProcessor
    ensures { result ≡ processor_out p }
{
    let regs = p.regs;
    let mode = p.mode;
    let mode = words::mode_number(mode);
    let hardware = VbHardware::from(p.hardware);
    VbProcessor {
        regs,
        pc: p.pc,
        eipc: p.eipc,
        eipsw: p.eipsw,
        fepc: p.fepc,
        fepsw: p.fepsw,
        ecr: p.ecr,
        psw: p.psw,
        sr25: p.sr25,
        sr29: p.sr29,
        sr31: p.sr31,
        mode,
        hardware,
    }
}
