// One instruction, by its opcode: a common one, or one on the system registers.
ghost use Rattle.std.specs.Prelude.{◌≡◌, ◌/◌, ◌<◌, slice_index};
ghost use Rattle.bus.specs.Memories.{held_by, SameLoans};
ghost use Rattle.bus.specs.TimerLines.{lines_place};
ghost use Rattle.processor_fast.specs.inner.Turns.{Turns};

use crate::{Cursor, Fetched, system};
use bus::memories::Memories;
use processor_fast_compute::{Fast, arithmetic, floating};
use processor_fast_move::{branch, transfer};
use processor_lazy_flags::Flags;
use word::Width;

// The instruction at the cursor. Its second halfword is taken out of the word where it is used: the loop's head stays
// short (docs/SPEED.md).
pub fn dispatch(
    memories: &mut Memories<'_>,
    regs: &mut [u32; 32],
    sys: &mut [u32; 8],
    at: Cursor,
    code: Fetched,
    psw: u32,
    flags: Flags,
) -> Fast
    requires { code.first < 65536 }
    ensures turns { Turns (slice_index memories.old.device.now lines_place) at.base code.first (code.word / 65536) result at.x psw
        flags regs.old sys.old (held_by memories.old) regs.new sys.new (held_by memories.new) }
    ensures pak { memories.new.pak.now ≡ memories.old.pak.now }
    ensures devices { memories.new.device.now ≡ memories.old.device.now }
    ensures same { SameLoans memories.old memories.new }
{
    let base = at.base;
    let x = at.x;
    let f = code.first;
    let w = code.word;
    match f / 1024 {
        0 => arithmetic::mov(regs, f, x, flags),
        1 => arithmetic::add(regs, f, x, flags),
        2 => arithmetic::sub(regs, f, x, flags),
        3 => arithmetic::cmp(regs, f, x, flags),
        4 => arithmetic::shl(regs, f, x, flags),
        5 => arithmetic::shr(regs, f, x, flags),
        6 => branch::jmp(regs, base, f, x, flags),
        7 => arithmetic::sar(regs, f, x, flags),
        8 => arithmetic::mul(regs, f, x, flags),
        9 => arithmetic::div(regs, f, x, flags),
        10 => arithmetic::mulu(regs, f, x, flags),
        11 => arithmetic::divu(regs, f, x, flags),
        12 => arithmetic::or(regs, f, x, flags),
        13 => arithmetic::and(regs, f, x, flags),
        14 => arithmetic::xor(regs, f, x, flags),
        15 => arithmetic::not(regs, f, x, flags),
        16 => arithmetic::mov_immediate(regs, f, x, flags),
        17 => arithmetic::add_immediate(regs, f, x, flags),
        18 => arithmetic::setf(regs, f, x, flags),
        19 => arithmetic::cmp_immediate(regs, f, x, flags),
        20 => arithmetic::shl_immediate(regs, f, x, flags),
        21 => arithmetic::shr_immediate(regs, f, x, flags),
        22 => system::cli(memories.device, x, psw, flags),
        23 => arithmetic::sar_immediate(regs, f, x, flags),
        24 => Fast::NotHere,
        25 => Fast::NotHere,
        26 => Fast::NotHere,
        27 => Fast::NotHere,
        28 => system::ldsr(regs, sys, f, x, psw, flags),
        29 => system::stsr(regs, sys, f, x, psw, flags),
        30 => system::sei(x, psw, flags),
        31 => Fast::NotHere,
        32 => branch::conditional(0, f, x, flags),
        33 => branch::conditional(1, f, x, flags),
        34 => branch::conditional(2, f, x, flags),
        35 => branch::conditional(3, f, x, flags),
        36 => branch::conditional(4, f, x, flags),
        37 => branch::conditional(5, f, x, flags),
        38 => branch::conditional(6, f, x, flags),
        39 => branch::conditional(7, f, x, flags),
        40 => arithmetic::movea(regs, f, w / 65536, x, flags),
        41 => arithmetic::addi(regs, f, w / 65536, x, flags),
        42 => branch::jr(f, w / 65536, x, flags),
        43 => branch::jal(regs, base, f, w / 65536, x, flags),
        44 => arithmetic::ori(regs, f, w / 65536, x, flags),
        45 => arithmetic::andi(regs, f, w / 65536, x, flags),
        46 => arithmetic::xori(regs, f, w / 65536, x, flags),
        47 => arithmetic::movhi(regs, f, w / 65536, x, flags),
        48 => transfer::load(memories, Width::Byte, regs, f, w / 65536, x, flags),
        49 => transfer::load(memories, Width::Half, regs, f, w / 65536, x, flags),
        50 => Fast::NotHere,
        51 => transfer::load(memories, Width::Word, regs, f, w / 65536, x, flags),
        52 => transfer::store(memories, Width::Byte, regs, f, w / 65536, x, flags),
        53 => transfer::store(memories, Width::Half, regs, f, w / 65536, x, flags),
        54 => Fast::NotHere,
        55 => transfer::store(memories, Width::Word, regs, f, w / 65536, x, flags),
        56 => transfer::input(memories, Width::Byte, regs, f, w / 65536, x, flags),
        57 => transfer::input(memories, Width::Half, regs, f, w / 65536, x, flags),
        58 => Fast::NotHere,
        59 => transfer::input(memories, Width::Word, regs, f, w / 65536, x, flags),
        60 => transfer::store(memories, Width::Byte, regs, f, w / 65536, x, flags),
        61 => transfer::store(memories, Width::Half, regs, f, w / 65536, x, flags),
        62 => floating::extended(regs, f, w / 65536, x, flags),
        63 => transfer::store(memories, Width::Word, regs, f, w / 65536, x, flags),
        _ => Fast::NotHere,
    }
}
