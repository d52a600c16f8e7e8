// Parts of a file: bytes put over a buffer, two parts compared, and the sum of one.
ghost use Rattle.std.specs.Prelude.{◌≡◌, ◌+◌, ◌≤◌, length, replicate};
ghost use Rattle.saved_bytes.specs.Numbers.{same_of};
ghost use Rattle.saved_bytes.specs.Parts.{body_sum_of};
ghost use Rattle.saved_bytes.specs.inner.Put.{put_at};

// Bytes over those from byte `at` on.
pub fn put_bytes(output: &mut [u8], at: usize, bytes: &[u8])
    requires { at + length bytes.now ≤ length output.old }
    ensures { output.new ≡ put_at output.old at bytes.now }
{
    output[at..at + bytes.len()].copy_from_slice(bytes);
}

// Zeros over `count` bytes from byte `at` on.
pub fn put_zeros(output: &mut [u8], at: usize, count: usize)
    requires { at + count ≤ length output.old }
    ensures { output.new ≡ put_at output.old at (replicate count 0) }
{
    let mut k = 0;
    while k < count {
        output[at + k] = 0;
        k += 1;
    }
}

// Whether two parts of one length hold the same bytes.
pub fn same(a: &[u8], b: &[u8]) -> bool
    requires { length a.now ≡ length b.now }
    ensures { result ≡ same_of a.now b.now }
{
    let mut k = 0;
    while k < a.len() {
        if a[k] != b[k] {
            return false;
        }
        k += 1;
    }
    true
}

// The sum of a body's bytes. The longest body has 16,777,216 of them, so no sum reaches 2^32.
pub fn sum(bytes: &[u8]) -> u32
    requires { length bytes.now ≤ 16777216 }
    ensures { result ≡ body_sum_of bytes.now }
{
    let mut total = 0u32;
    let mut k = 0;
    while k < bytes.len() {
        total += bytes[k] as u32;
        k += 1;
    }
    total
}
