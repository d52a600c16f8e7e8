// Halfwords and words put into bytes and taken out of them, lowest byte first.
ghost use Rattle.std.specs.Prelude.{◌≡◌, ◌+◌, ◌*◌, ◌≤◌, length};
ghost use Rattle.saved_bytes.specs.Numbers.{bytes_of, halves_of, halves_from, words_from, same_of};
ghost use Rattle.saved_bytes.specs.inner.Put.{put_at};

// Halfwords from byte `at` on.
pub fn put_halves(output: &mut [u8], at: usize, halves: &[u16])
    requires { at + 2 * length halves.now ≤ length output.old }
    ensures { output.new ≡ put_at output.old at (bytes_of halves.now) }
{
    let mut k = 0;
    while k < halves.len() {
        word::put_half(output, at + 2 * k, halves[k] as u32);
        k += 1;
    }
}

// Words from byte `at` on.
pub fn put_words(output: &mut [u8], at: usize, words: &[u32])
    requires { at + 4 * length words.now ≤ length output.old }
    ensures { output.new ≡ put_at output.old at (bytes_of (halves_of words.now)) }
{
    let mut k = 0;
    while k < words.len() {
        word::put_word(output, at + 4 * k, words[k]);
        k += 1;
    }
}

// The halfwords from byte `at` on, as many as fit.
pub fn take_halves(file: &[u8], at: usize, halves: &mut [u16])
    requires { at + 2 * length halves.old ≤ length file.now }
    ensures { halves.new ≡ halves_from file.now at (length halves.old) }
{
    let mut k = 0;
    while k < halves.len() {
        halves[k] = word::half_at(file, at + 2 * k) as u16;
        k += 1;
    }
}

// The words from byte `at` on, as many as fit.
pub fn take_words(file: &[u8], at: usize, words: &mut [u32])
    requires { at + 4 * length words.old ≤ length file.now }
    ensures { words.new ≡ words_from file.now at (length words.old) }
{
    let mut k = 0;
    while k < words.len() {
        words[k] = word::word_at(file, at + 4 * k);
        k += 1;
    }
}

// Whether a file begins with these halfwords.
pub fn same_halves(file: &[u8], halves: &[u16]) -> bool
    requires { 2 * length halves.now ≤ length file.now }
    ensures { result ≡ same_of (halves_from file.now 0 (length halves.now)) halves.now }
{
    let mut k = 0;
    while k < halves.len() {
        if word::half_at(file, 2 * k) != halves[k] as u32 {
            return false;
        }
        k += 1;
    }
    true
}
