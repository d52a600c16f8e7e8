// Addresses written into the output buffer, one word each, as far as it reaches.
ghost use Rattle.std.specs.Prelude.{◌<◌, [], ◌∷◌};
ghost use Rattle.drawing_laws.specs.PixelBytes.{half_bytes_of};
ghost use Rattle.drawing_bytes.specs.inner.Output.{Lists};

// An address into word n; answers the number of the next word.
pub fn put(output: &mut [u32], n: usize, a: usize) -> usize
    requires { (n < 65536) × (a < 262144) }
    ensures { Lists output.old output.new n (a ∷ []) result }
{
    if output.len() <= n {
        return n + 1;
    }
    output[n] = a as u32;
    n + 1
}

// The addresses of the two bytes of the halfword at an address.
pub fn put_half(output: &mut [u32], n: usize, a: usize) -> usize
    requires { (n < 65535) × (a < 262143) }
    ensures { Lists output.old output.new n (half_bytes_of a) result }
{
    let next = put(output, n, a);
    put(output, next, a + 1)
}
