// Reads a character through the part of VRAM that the lookup answers: character 513's 16 bytes are a line of text, and
// a lookup that is refused reads nothing.
#![tactic(auto)]

ghost use Rattle.std.specs.Prelude.{◌+◌, ◌≤◌, ◌≡◌, length};

use std::io;
use std::io::Write;

// A VRAM of zeros.
fn memory() -> [u8; 262144]
    ensures { 262144 ≡ length result }
{
    [0; 262144]
}

// Puts the bytes of a line at an address of VRAM.
fn put(vram: &mut [u8], at: usize, line: &[u8])
    requires { (at + length line.now ≤ length vram.old) × (length vram.old ≤ 262144) }
    ensures { length vram.new ≡ length vram.old }
{
    vram[at..at + line.len()].copy_from_slice(line);
}

fn main(rt: HostRuntime) -> io::Result<()> {
    let mut space = memory();
    let vram: &mut [u8] = &mut space;
    let mut out = rt.stdout();
    put(vram, 57360, b"character 0x201\n");
    out.write_all(drawing::character(vram, 513))?;
    out.write_all(drawing::character(vram, 2048))?;
    put(vram, 131056, b"character 0x7FF\n");
    out.write_all(drawing::character(vram, 2047))
}
