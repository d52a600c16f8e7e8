// PSW and the lazy flags.
ghost use Rattle.std.specs.Prelude.{◌≡◌, ◌+◌, ◌*◌, ◌/◌, ◌%◌, ◌^◌, ◌<◌, ◌≢◌};
ghost use Rattle.processor_lazy_flags.specs.inner.Packed.{packed_of, carry_of, overflow_of, Holds};
ghost use Rattle.processor_arithmetic.specs.Flag.{zero_of};

use crate::Flags;

// A sum above one of its parts.
pub fn joined(sum: u32, part: u32) -> u64
    ensures { result ≡ sum * 2 ^ 32 + part }
{
    u64::from(sum) * 4294967296 + u64::from(part)
}

// A value with this CY and OV clear. 1 and 0xFFFFFFFF have the sum 0: they carry and, as 1 and -1, do not overflow.
pub fn carried(value: u32, cy: u32) -> Flags
    requires { cy < 2 }
    ensures { Holds result value cy 0 }
{
    Flags {
        addition: u64::from(cy),
        value,
    }
}

// A value with these CY and OV. A carry into the top bit differs from the one out of it where OV is set; so both parts
// have CY for their top bit, and the sum has the carry into it.
pub fn made(value: u32, cy: u32, ov: u32) -> Flags
    requires { (cy < 2) × (ov < 2) }
    ensures { Holds result value cy ov }
{
    let top = cy ^ ov;
    Flags {
        addition: joined(top * 2147483648, cy * 2147483648 + top),
        value,
    }
}

// A value with the CY of these flags, and OV clear. At 64 bits the sum less the part borrows where CY is set, and the
// high word of the difference is then 0xFFFFFFFF, else 0. 0xFFFFFFFF and 1 have the sum 0: they carry and, as -1 and 1,
// do not overflow.
pub fn cleared(value: u32, flags: Flags) -> Flags
    ensures { Holds result value (carry_of flags) 0 }
{
    let difference = (flags.addition / 4294967296).wrapping_sub(flags.addition % 4294967296);
    Flags {
        addition: difference / 4294967296,
        value,
    }
}

// CY: the wrapped sum is less than either part.
pub fn carry(flags: Flags) -> u32
    ensures { (result ≡ carry_of flags) × (result < 2) }
{
    processor_arithmetic::flag::bit(flags.addition / 4294967296 < flags.addition % 4294967296)
}

// A word whose top bit is OV: the sign of the wrapped sum is neither part's.
pub fn overflow(flags: Flags) -> u32
    ensures { result / 2 ^ 31 ≡ overflow_of flags }
{
    let sum = (flags.addition / 4294967296) as u32;
    let part = (flags.addition % 4294967296) as u32;
    let other = sum.wrapping_sub(part);
    (part ^ sum) & (other ^ sum)
}

// PSW with these flags.
pub fn packed(psw: u32, flags: Flags) -> u32
    ensures { result ≡ packed_of psw flags }
{
    let ov = overflow(flags) / 2147483648 % 2;
    processor_arithmetic::flag::flags(psw, carry(flags), ov, flags.value)
}

// A value with the S and Z of PSW, which are not both set: PSW's two bits, with Z inverted, on top.
fn value(psw: u32) -> u32
    requires { psw % 4 ≢ 3 }
    ensures { (result / 2 ^ 31 * 2 + zero_of result ≡ psw % 4) × (result < 2 ^ 32) }
{
    (psw % 4 ^ 1) * 1073741824
}

// The flags of PSW, where S and Z are not both set.
pub fn unpacked(psw: u32) -> Flags
    requires { psw % 4 ≢ 3 }
    ensures { packed_of psw result ≡ psw }
{
    let value = value(psw);
    let cy = psw / 8 % 2;
    if psw / 4 % 2 == 0 {
        return carried(value, cy);
    }
    made(value, cy, 1)
}
