// The fields of an instruction, as the decoder has them: f is the first halfword, s the second.
ghost use Rattle.std.specs.Prelude.{◌≡◌, ◌+◌, ◌/◌, ◌%◌, ◌^◌, ◌<◌, slice_index};
ghost use Rattle.word.specs.Extend.{extend_of};

use processor_machine::register::get;

pub fn reg1(regs: &[u32; 32], f: u32) -> u32
    ensures { result ≡ slice_index regs.now (f % 32 % 32) }
{
    get(regs, f % 32)
}

pub fn reg2(regs: &[u32; 32], f: u32) -> u32
    ensures { result ≡ slice_index regs.now (f / 32 % 32 % 32) }
{
    get(regs, f / 32 % 32)
}

// A five-bit immediate with its sign copied to all bits above.
pub fn extend5(x: u32) -> u32
    requires { x < 32 }
    ensures { result ≡ extend_of 16 x }
{
    std::num::wrapping_sub_u32(x ^ 16, 16)
}

// A byte with its sign copied to all bits above.
pub fn extend8(x: u32) -> u32
    requires { x < 256 }
    ensures { result ≡ extend_of 128 x }
{
    std::num::wrapping_sub_u32(x ^ 128, 128)
}

// A nine-bit displacement with its sign copied to all bits above.
pub fn extend9(x: u32) -> u32
    requires { x < 512 }
    ensures { result ≡ extend_of 256 x }
{
    std::num::wrapping_sub_u32(x ^ 256, 256)
}

// A halfword with its sign copied to all bits above.
pub fn extend16(x: u32) -> u32
    requires { x < 65536 }
    ensures { result ≡ extend_of 32768 x }
{
    std::num::wrapping_sub_u32(x ^ 32768, 32768)
}

// A 26-bit displacement with its sign copied to all bits above.
pub fn extend26(x: u32) -> u32
    requires { x < 67108864 }
    ensures { result ≡ extend_of 33554432 x }
{
    std::num::wrapping_sub_u32(x ^ 33554432, 33554432)
}

// The index of the following instruction, after one halfword and after two.
pub fn after_one(x: u32) -> u32
    ensures { result ≡ (x + 2) % 2 ^ 32 }
{
    std::num::wrapping_add_u32(x, 2)
}

pub fn after_two(x: u32) -> u32
    ensures { result ≡ (x + 4) % 2 ^ 32 }
{
    std::num::wrapping_add_u32(x, 4)
}
