// The floating instructions that end without a trap and without underflow; others are left to the step.
ghost use Rattle.std.specs.Prelude.{◌≡◌, ◌+◌, ◌%◌, ◌^◌, true, false};
ghost use Rattle.processor_decode.specs.SubOpcode.{cmpf, floating};
ghost use Rattle.processor_decode.specs.SubOpcode.{extended_of};
ghost use Rattle.processor_fast_compute.specs.inner.Fast.{Computes, Settles};

use crate::Fast;
use crate::field::{after_two, reg1, reg2};
use processor_decode::sub_opcode::FloatingOperation;
use processor_float::{Compared, FloatOutcome, Operation, arithmetic, comparison, conversion};
use processor_lazy_flags::{Flags, bitwise, order};
use processor_machine::register::put;

// What an outcome leaves, for register n.
fn settle(regs: &mut [u32; 32], n: u32, o: FloatOutcome, x: u32, flags: Flags) -> Fast
    ensures { Settles n o result x flags regs.old regs.new }
{
    match o {
        FloatOutcome::Number(v, underflowed) => {
            if underflowed {
                return Fast::NotHere;
            }
            let w = arithmetic::word_of(v);
            put(regs, n, w);
            let g = order::number(w);
            Fast::Done {
                x: after_two(x),
                addition: g.addition,
                value: g.value,
            }
        }
        FloatOutcome::Word(w) => {
            put(regs, n, w);
            let g = bitwise::value(w, flags);
            Fast::Done {
                x: after_two(x),
                addition: g.addition,
                value: g.value,
            }
        }
        FloatOutcome::Reserved => Fast::NotHere,
        FloatOutcome::Invalid => Fast::NotHere,
        FloatOutcome::ZeroDivide => Fast::NotHere,
        FloatOutcome::Overflow => Fast::NotHere,
    }
}

// After a comparison.
fn ordered(g: Flags, x: u32) -> Fast
    ensures { result ≡ Fast.Done ((x + 4) % 2 ^ 32) g.addition g.value }
{
    Fast::Done {
        x: after_two(x),
        addition: g.addition,
        value: g.value,
    }
}

fn cmpf(regs: &[u32; 32], f: u32, x: u32, flags: Flags) -> Fast
    ensures { Computes true (cmpf f) result x flags regs.now regs.now }
{
    let a = reg2(regs, f);
    let b = reg1(regs, f);
    match comparison::compare(a, b) {
        Compared::Lower => ordered(order::lower(), x),
        Compared::Equal => ordered(order::equal(), x),
        Compared::Higher => ordered(order::higher(), x),
        Compared::Reserved => Fast::NotHere,
    }
}

fn addf(regs: &mut [u32; 32], f: u32, x: u32, flags: Flags) -> Fast
    ensures { Computes true (floating FloatingOperation.Addf f) result x flags regs.old regs.new }
{
    let a = reg2(regs, f);
    let b = reg1(regs, f);
    let o = arithmetic::operate(Operation::Add, a, b);
    settle(regs, f / 32 % 32, o, x, flags)
}

fn subf(regs: &mut [u32; 32], f: u32, x: u32, flags: Flags) -> Fast
    ensures { Computes true (floating FloatingOperation.Subf f) result x flags regs.old regs.new }
{
    let a = reg2(regs, f);
    let b = reg1(regs, f);
    let o = arithmetic::operate(Operation::Subtract, a, b);
    settle(regs, f / 32 % 32, o, x, flags)
}

fn mulf(regs: &mut [u32; 32], f: u32, x: u32, flags: Flags) -> Fast
    ensures { Computes true (floating FloatingOperation.Mulf f) result x flags regs.old regs.new }
{
    let a = reg2(regs, f);
    let b = reg1(regs, f);
    let o = arithmetic::operate(Operation::Multiply, a, b);
    settle(regs, f / 32 % 32, o, x, flags)
}

fn divf(regs: &mut [u32; 32], f: u32, x: u32, flags: Flags) -> Fast
    ensures { Computes true (floating FloatingOperation.Divf f) result x flags regs.old regs.new }
{
    let a = reg2(regs, f);
    let b = reg1(regs, f);
    let o = arithmetic::operate(Operation::Divide, a, b);
    settle(regs, f / 32 % 32, o, x, flags)
}

fn cvt_ws(regs: &mut [u32; 32], f: u32, x: u32, flags: Flags) -> Fast
    ensures { Computes true (floating FloatingOperation.CvtWs f) result x flags regs.old regs.new }
{
    let b = reg1(regs, f);
    let o = FloatOutcome::Number(conversion::float_of(b), false);
    settle(regs, f / 32 % 32, o, x, flags)
}

fn cvt_sw(regs: &mut [u32; 32], f: u32, x: u32, flags: Flags) -> Fast
    ensures { Computes true (floating FloatingOperation.CvtSw f) result x flags regs.old regs.new }
{
    let b = reg1(regs, f);
    let o = conversion::nearest(b);
    settle(regs, f / 32 % 32, o, x, flags)
}

fn trnc_sw(regs: &mut [u32; 32], f: u32, x: u32, flags: Flags) -> Fast
    ensures { Computes true (floating FloatingOperation.TrncSw f) result x flags regs.old regs.new }
{
    let b = reg1(regs, f);
    let o = conversion::truncated(b);
    settle(regs, f / 32 % 32, o, x, flags)
}

// Opcode 111110, by sub-opcode.
pub fn extended(regs: &mut [u32; 32], f: u32, s: u32, x: u32, flags: Flags) -> Fast
    ensures { Computes true (extended_of f s) result x flags regs.old regs.new }
{
    match s / 1024 {
        0 => cmpf(regs, f, x, flags),
        2 => cvt_ws(regs, f, x, flags),
        3 => cvt_sw(regs, f, x, flags),
        4 => addf(regs, f, x, flags),
        5 => subf(regs, f, x, flags),
        6 => mulf(regs, f, x, flags),
        7 => divf(regs, f, x, flags),
        11 => trnc_sw(regs, f, x, flags),
        _ => Fast::NotHere,
    }
}
