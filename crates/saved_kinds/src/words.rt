// Kind 1's words of a processor, and the numbers of its mode.
ghost use Rattle.std.specs.Prelude.{◌≡◌};
ghost use Rattle.saved_kinds.specs.Words.{mode_number, mode_of, rest_of};

use processor::Processor;
use processor_machine::Mode;

pub fn mode_number(mode: Mode) -> u32
    ensures { result ≡ mode_number mode }
{
    match mode {
        Mode::Running => 0,
        Mode::Halted => 1,
        Mode::Fatal => 2,
    }
}

// The mode of a number that is at most 2.
pub fn mode_of(n: u32) -> Mode
    ensures { result ≡ mode_of n }
{
    if n == 0 {
        return Mode::Running;
    }
    if n == 1 {
        return Mode::Halted;
    }
    Mode::Fatal
}

// The eleven words after the general registers.
pub fn rest(p: Processor) -> [u32; 11]
    ensures { result ≡ rest_of p }
{
    let mode = p.mode;
    let last = mode_number(mode);
    [
        p.pc, p.eipc, p.eipsw, p.fepc, p.fepsw, p.ecr, p.psw, p.sr25, p.sr29, p.sr31, last,
    ]
}
