// At most `budget` of the instructions that the dispatch does.
ghost use Rattle.std.specs.Prelude.{◌≡◌, ◌%◌, length, ◌≢◌};
ghost use Rattle.bus.specs.Memory.{Lengths};
ghost use Rattle.bus.specs.Lent.{entering, leaving};
ghost use Rattle.bus.specs.Memories.{held_by, SameLoans};
ghost use Rattle.bus.specs.inner.Code.{Stands};
ghost use Rattle.processor_machine.specs.State.{state_of};
ghost use Rattle.processor_machine.specs.declared.Mode.{Mode};
ghost use Rattle.processor_fast.specs.inner.Leads.{StretchedBy, Stretched};

use crate::dispatch::dispatch;
use crate::{Cursor, Fetched, Progress, Rest};
use bus::Device;
use bus::code::{Code, code_at};
use bus::memories::Memories;
use processor_fast_compute::Fast;
use processor_fast_compute::field::after_one;
use processor_lazy_flags::{Flags, status};

// Code that stands from `base` on, as long as the index stays below `last`. It borrows the memories one by one, so that they
// stay in registers of the processor that runs this, and lends them on together. Inlined into a run the loop took up to
// 1.29 times the machine instructions, and its place in memory was left to the compiler (docs/DECISIONS.md).
#[inline(never)]
fn inside(
    rom: &[u8],
    wram: &mut [u8],
    vram: &mut [u8],
    pak: &mut [u8],
    device: &mut Device,
    regs: &mut [u32; 32],
    sys: &mut [u32; 8],
    pc: u32,
    psw: u32,
    budget: u64,
    in_rom: bool,
    base: u32,
    last: u32,
) -> Rest
    requires { Lengths (length rom.now) (length wram.old) (length vram.old) (length pak.old)
        × Stands (length rom.now) in_rom base last × (pc % 2 ≡ 0) × (psw % 4 ≢ 3) }
    ensures stretched { StretchedBy budget (state_of regs.old sys.old pc psw Mode.Running)
        (entering rom.now wram.old vram.old pak.old device.old) regs.new sys.new result
        (leaving rom.now wram.new vram.new pak.new device.new) }
    ensures pak { pak.new ≡ pak.old }
    ensures devices { device.new ≡ device.old }
{
    let mut memories = Memories {
        rom,
        wram,
        vram,
        pak,
        device,
    };
    let mut x = pc.wrapping_sub(base);
    let mut flags = status::unpacked(psw);
    let mut high = psw;
    let mut left = budget;
    while 0 < left {
        if last <= x {
            return Rest {
                left,
                pc: base.wrapping_add(x),
                psw: status::packed(high, flags),
            };
        }
        let w = memories.fetch(in_rom, x as usize);
        match dispatch(
            &mut memories,
            regs,
            sys,
            Cursor { base, x },
            Fetched {
                first: w % 65536,
                word: w,
            },
            high,
            flags,
        ) {
            Fast::Done {
                x: to,
                addition,
                value,
            } => {
                x = to;
                flags = Flags { addition, value };
                left -= 1;
            }
            Fast::Masked { psw: p } => {
                x = after_one(x);
                high = p;
                left -= 1;
            }
            Fast::NotHere => {
                return Rest {
                    left,
                    pc: base.wrapping_add(x),
                    psw: status::packed(high, flags),
                };
            }
        }
    }
    Rest {
        left,
        pc: base.wrapping_add(x),
        psw: status::packed(high, flags),
    }
}

// The instructions at PC, as long as the dispatch does them.
pub fn stretch(
    memories: &mut Memories<'_>,
    regs: &mut [u32; 32],
    sys: &mut [u32; 8],
    pc: u32,
    psw: u32,
    budget: u64,
) -> Progress
    ensures stretched { Stretched budget (state_of regs.old sys.old pc psw Mode.Running)
        (held_by memories.old) result.count
        (state_of regs.new sys.new result.pc result.psw Mode.Running)
        (held_by memories.new) }
    ensures pak { memories.new.pak.now ≡ memories.old.pak.now }
    ensures devices { memories.new.device.now ≡ memories.old.device.now }
    ensures same { SameLoans memories.old memories.new }
{
    if pc % 2 != 0 || psw % 4 == 3 {
        return Progress { count: 0, pc, psw };
    }
    let (in_rom, base, last) = match code_at(memories.rom.len(), pc) {
        Code::Rom { base, last } => (true, base, last),
        Code::Wram { base, last } => (false, base, last),
        Code::Elsewhere => return Progress { count: 0, pc, psw },
    };
    let rest = inside(
        memories.rom,
        memories.wram,
        memories.vram,
        memories.pak,
        memories.device,
        regs,
        sys,
        pc,
        psw,
        budget,
        in_rom,
        base,
        last,
    );
    Progress {
        count: budget - rest.left,
        pc: rest.pc,
        psw: rest.psw,
    }
}
