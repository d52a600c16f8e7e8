// XB, XH, REV and MPYHW.
ghost use Rattle.std.specs.Prelude.{◌≡◌};
ghost use Rattle.processor_float.specs.Nintendo.{xb_of, xh_of, rev_of, mpyhw_of};

// The two low bytes exchanged.
pub fn xb(w: u32) -> u32
    ensures { result ≡ xb_of w }
{
    w / 65536 * 65536 + w % 256 * 256 + w / 256 % 256
}

// The two halfwords exchanged.
pub fn xh(w: u32) -> u32
    ensures { result ≡ xh_of w }
{
    w.rotate_left(16)
}

// The bits in reverse order.
pub fn rev(w: u32) -> u32
    ensures { result ≡ rev_of w }
{
    w.reverse_bits()
}

// reg2 times the low 17 bits of reg1, sign-extended: a is reg2 and b is reg1.
pub fn mpyhw(a: u32, b: u32) -> u32
    ensures { result ≡ mpyhw_of a b }
{
    a.wrapping_mul(word::extend(65536, b % 131072))
}
