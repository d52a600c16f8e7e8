// The instructions that compute: Register Transfer, Arithmetic, Bitwise, SETF. Each contract names the instruction's
// row of the decoder's table, and holds for every value that the function does not take.
ghost use Rattle.std.specs.Prelude.{◌≡◌, ◌/◌, ◌%◌, ◌<◌, true, false, Some};
ghost use Rattle.word.specs.Extend.{extend_of};
ghost use Rattle.processor_decode.specs.Format as format;
ghost use Rattle.processor_decode.specs.declared.Instruction as instruction;
ghost use Rattle.processor_lazy_flags.specs.inner.Packed.{packed_value_of};
ghost use Rattle.processor_machine.specs.State.{put_of};
ghost use Rattle.processor_fast_compute.specs.inner.Fast.{Computes};

use crate::Fast;
use crate::field::{after_one, after_two, extend5, extend16, reg1, reg2};
use processor_decode::{ImmediateOperation, LongOperation, RegisterOperation};
use processor_lazy_flags::{Flags, Pair, bitwise, condition, product, quotient, shift, sum};
use processor_machine::register::put;

// A result for register n with its flags.
fn result(regs: &mut [u32; 32], n: u32, flags: Flags, x: u32) -> Fast
    ensures { (regs.new ≡ put_of regs.old n (packed_value_of flags))
        × (result ≡ Fast.Done x flags.addition flags.value) }
{
    put(regs, n, flags.value);
    Fast::Done {
        x,
        addition: flags.addition,
        value: flags.value,
    }
}

// A value for register n that leaves the flags.
fn value(regs: &mut [u32; 32], n: u32, v: u32, x: u32, flags: Flags) -> Fast
    ensures { (regs.new ≡ put_of regs.old n v) × (result ≡ Fast.Done x flags.addition flags.value) }
{
    put(regs, n, v);
    Fast::Done {
        x,
        addition: flags.addition,
        value: flags.value,
    }
}

// Two results: the first for r30, the other for register n.
fn pair(regs: &mut [u32; 32], n: u32, p: Pair, x: u32) -> Fast
    ensures { (regs.new ≡ put_of (put_of regs.old 30 p.r30) n (packed_value_of p.flags))
        × (result ≡ Fast.Done x p.flags.addition p.flags.value) }
{
    put(regs, 30, p.r30);
    let flags = p.flags;
    put(regs, n, flags.value);
    Fast::Done {
        x,
        addition: flags.addition,
        value: flags.value,
    }
}

pub fn mov(regs: &mut [u32; 32], f: u32, x: u32, flags: Flags) -> Fast
    ensures { Computes false (format.register RegisterOperation.Mov f) result x flags regs.old regs.new }
{
    let b = reg1(regs, f);
    value(regs, f / 32 % 32, b, after_one(x), flags)
}

pub fn add(regs: &mut [u32; 32], f: u32, x: u32, flags: Flags) -> Fast
    ensures { Computes false (format.register RegisterOperation.Add f) result x flags regs.old regs.new }
{
    let a = reg2(regs, f);
    let b = reg1(regs, f);
    let o = sum::add(a, b);
    result(regs, f / 32 % 32, o, after_one(x))
}

pub fn sub(regs: &mut [u32; 32], f: u32, x: u32, flags: Flags) -> Fast
    ensures { Computes false (format.register RegisterOperation.Sub f) result x flags regs.old regs.new }
{
    let a = reg2(regs, f);
    let b = reg1(regs, f);
    let o = sum::sub(a, b);
    result(regs, f / 32 % 32, o, after_one(x))
}

pub fn shl(regs: &mut [u32; 32], f: u32, x: u32, flags: Flags) -> Fast
    ensures { Computes false (format.register RegisterOperation.Shl f) result x flags regs.old regs.new }
{
    let a = reg2(regs, f);
    let b = reg1(regs, f);
    let o = shift::shl(a, b);
    result(regs, f / 32 % 32, o, after_one(x))
}

pub fn shr(regs: &mut [u32; 32], f: u32, x: u32, flags: Flags) -> Fast
    ensures { Computes false (format.register RegisterOperation.Shr f) result x flags regs.old regs.new }
{
    let a = reg2(regs, f);
    let b = reg1(regs, f);
    let o = shift::shr(a, b);
    result(regs, f / 32 % 32, o, after_one(x))
}

pub fn sar(regs: &mut [u32; 32], f: u32, x: u32, flags: Flags) -> Fast
    ensures { Computes false (format.register RegisterOperation.Sar f) result x flags regs.old regs.new }
{
    let a = reg2(regs, f);
    let b = reg1(regs, f);
    let o = shift::sar(a, b);
    result(regs, f / 32 % 32, o, after_one(x))
}

pub fn or(regs: &mut [u32; 32], f: u32, x: u32, flags: Flags) -> Fast
    ensures { Computes false (format.register RegisterOperation.Or f) result x flags regs.old regs.new }
{
    let a = reg2(regs, f);
    let b = reg1(regs, f);
    let o = bitwise::or(a, b, flags);
    result(regs, f / 32 % 32, o, after_one(x))
}

pub fn and(regs: &mut [u32; 32], f: u32, x: u32, flags: Flags) -> Fast
    ensures { Computes false (format.register RegisterOperation.And f) result x flags regs.old regs.new }
{
    let a = reg2(regs, f);
    let b = reg1(regs, f);
    let o = bitwise::and(a, b, flags);
    result(regs, f / 32 % 32, o, after_one(x))
}

pub fn xor(regs: &mut [u32; 32], f: u32, x: u32, flags: Flags) -> Fast
    ensures { Computes false (format.register RegisterOperation.Xor f) result x flags regs.old regs.new }
{
    let a = reg2(regs, f);
    let b = reg1(regs, f);
    let o = bitwise::xor(a, b, flags);
    result(regs, f / 32 % 32, o, after_one(x))
}

pub fn not(regs: &mut [u32; 32], f: u32, x: u32, flags: Flags) -> Fast
    ensures { Computes false (format.register RegisterOperation.Not f) result x flags regs.old regs.new }
{
    let b = reg1(regs, f);
    let o = bitwise::not(b, flags);
    result(regs, f / 32 % 32, o, after_one(x))
}

pub fn cmp(regs: &[u32; 32], f: u32, x: u32, flags: Flags) -> Fast
    ensures { Computes false (format.register RegisterOperation.Cmp f) result x flags regs.now regs.now }
{
    let a = reg2(regs, f);
    let b = reg1(regs, f);
    let o = sum::sub(a, b);
    Fast::Done {
        x: after_one(x),
        addition: o.addition,
        value: o.value,
    }
}

pub fn mul(regs: &mut [u32; 32], f: u32, x: u32, flags: Flags) -> Fast
    ensures { Computes false (Some (instruction.Instruction.Mul (f % 32) (f / 32 % 32))) result x flags
        regs.old regs.new }
{
    let a = reg2(regs, f);
    let b = reg1(regs, f);
    let p = product::mul(a, b, flags);
    pair(regs, f / 32 % 32, p, after_one(x))
}

pub fn mulu(regs: &mut [u32; 32], f: u32, x: u32, flags: Flags) -> Fast
    ensures { Computes false (Some (instruction.Instruction.Mulu (f % 32) (f / 32 % 32))) result x flags
        regs.old regs.new }
{
    let a = reg2(regs, f);
    let b = reg1(regs, f);
    let p = product::mulu(a, b, flags);
    pair(regs, f / 32 % 32, p, after_one(x))
}

pub fn div(regs: &mut [u32; 32], f: u32, x: u32, flags: Flags) -> Fast
    ensures { Computes false (Some (instruction.Instruction.Div (f % 32) (f / 32 % 32))) result x flags
        regs.old regs.new }
{
    let a = reg2(regs, f);
    let b = reg1(regs, f);
    if b == 0 {
        return Fast::NotHere;
    }
    let p = quotient::div(a, b, flags);
    pair(regs, f / 32 % 32, p, after_one(x))
}

pub fn divu(regs: &mut [u32; 32], f: u32, x: u32, flags: Flags) -> Fast
    ensures { Computes false (Some (instruction.Instruction.Divu (f % 32) (f / 32 % 32))) result x flags
        regs.old regs.new }
{
    let a = reg2(regs, f);
    let b = reg1(regs, f);
    if b == 0 {
        return Fast::NotHere;
    }
    let p = quotient::divu(a, b, flags);
    pair(regs, f / 32 % 32, p, after_one(x))
}

pub fn mov_immediate(regs: &mut [u32; 32], f: u32, x: u32, flags: Flags) -> Fast
    ensures { Computes false (format.immediate ImmediateOperation.Mov (extend_of 16 (format.low_of f)) f) result x flags
        regs.old regs.new }
{
    let b = extend5(f % 32);
    value(regs, f / 32 % 32, b, after_one(x), flags)
}

pub fn add_immediate(regs: &mut [u32; 32], f: u32, x: u32, flags: Flags) -> Fast
    ensures { Computes false (format.immediate ImmediateOperation.Add (extend_of 16 (format.low_of f)) f) result x flags
        regs.old regs.new }
{
    let a = reg2(regs, f);
    let b = extend5(f % 32);
    let o = sum::add(a, b);
    result(regs, f / 32 % 32, o, after_one(x))
}

pub fn cmp_immediate(regs: &[u32; 32], f: u32, x: u32, flags: Flags) -> Fast
    ensures { Computes false (format.immediate ImmediateOperation.Cmp (extend_of 16 (format.low_of f)) f) result x flags
        regs.now regs.now }
{
    let a = reg2(regs, f);
    let b = extend5(f % 32);
    let o = sum::sub(a, b);
    Fast::Done {
        x: after_one(x),
        addition: o.addition,
        value: o.value,
    }
}

pub fn setf(regs: &mut [u32; 32], f: u32, x: u32, flags: Flags) -> Fast
    ensures { Computes false (format.setf f) result x flags regs.old regs.new }
{
    let v = processor_arithmetic::flag::bit(condition::holds(f % 16, flags));
    value(regs, f / 32 % 32, v, after_one(x), flags)
}

pub fn shl_immediate(regs: &mut [u32; 32], f: u32, x: u32, flags: Flags) -> Fast
    ensures { Computes false (format.immediate ImmediateOperation.Shl (format.low_of f) f) result x flags
        regs.old regs.new }
{
    let a = reg2(regs, f);
    let o = shift::shl(a, f % 32);
    result(regs, f / 32 % 32, o, after_one(x))
}

pub fn shr_immediate(regs: &mut [u32; 32], f: u32, x: u32, flags: Flags) -> Fast
    ensures { Computes false (format.immediate ImmediateOperation.Shr (format.low_of f) f) result x flags
        regs.old regs.new }
{
    let a = reg2(regs, f);
    let o = shift::shr(a, f % 32);
    result(regs, f / 32 % 32, o, after_one(x))
}

pub fn sar_immediate(regs: &mut [u32; 32], f: u32, x: u32, flags: Flags) -> Fast
    ensures { Computes false (format.immediate ImmediateOperation.Sar (format.low_of f) f) result x flags
        regs.old regs.new }
{
    let a = reg2(regs, f);
    let o = shift::sar(a, f % 32);
    result(regs, f / 32 % 32, o, after_one(x))
}

pub fn movea(regs: &mut [u32; 32], f: u32, s: u32, x: u32, flags: Flags) -> Fast
    requires { s < 65536 }
    ensures { Computes true (format.long LongOperation.Movea (extend_of 32768 s) f) result x flags
        regs.old regs.new }
{
    let a = reg1(regs, f);
    let v = std::num::wrapping_add_u32(a, extend16(s));
    value(regs, f / 32 % 32, v, after_two(x), flags)
}

pub fn movhi(regs: &mut [u32; 32], f: u32, s: u32, x: u32, flags: Flags) -> Fast
    requires { s < 65536 }
    ensures { Computes true (format.long LongOperation.Movhi s f) result x flags regs.old regs.new }
{
    let a = reg1(regs, f);
    let v = std::num::wrapping_add_u32(a, s * 65536);
    value(regs, f / 32 % 32, v, after_two(x), flags)
}

pub fn addi(regs: &mut [u32; 32], f: u32, s: u32, x: u32, flags: Flags) -> Fast
    requires { s < 65536 }
    ensures { Computes true (format.long LongOperation.Addi (extend_of 32768 s) f) result x flags
        regs.old regs.new }
{
    let a = reg1(regs, f);
    let o = sum::add(a, extend16(s));
    result(regs, f / 32 % 32, o, after_two(x))
}

pub fn ori(regs: &mut [u32; 32], f: u32, s: u32, x: u32, flags: Flags) -> Fast
    requires { s < 65536 }
    ensures { Computes true (format.long LongOperation.Ori s f) result x flags regs.old regs.new }
{
    let a = reg1(regs, f);
    let o = bitwise::or(a, s, flags);
    result(regs, f / 32 % 32, o, after_two(x))
}

pub fn andi(regs: &mut [u32; 32], f: u32, s: u32, x: u32, flags: Flags) -> Fast
    requires { s < 65536 }
    ensures { Computes true (format.long LongOperation.Andi s f) result x flags regs.old regs.new }
{
    let a = reg1(regs, f);
    let o = bitwise::and(a, s, flags);
    result(regs, f / 32 % 32, o, after_two(x))
}

pub fn xori(regs: &mut [u32; 32], f: u32, s: u32, x: u32, flags: Flags) -> Fast
    requires { s < 65536 }
    ensures { Computes true (format.long LongOperation.Xori s f) result x flags regs.old regs.new }
{
    let a = reg1(regs, f);
    let o = bitwise::xor(a, s, flags);
    result(regs, f / 32 % 32, o, after_two(x))
}
