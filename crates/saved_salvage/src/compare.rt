// Whether a byte before the first body differs in the output, sums of replaced bodies aside.
ghost use Rattle.std.specs.Prelude.{◌≡◌, ◌+◌, ◌≤◌, length};
ghost use Rattle.saved_layout.specs.Layout.{file_length_of};
ghost use Rattle.saved_layout.specs.declared.Form.TheVariants.{Two};
ghost use Rattle.saved_salvage.specs.Differ.{either, part_differs, entry_differs, contents_differ};

use crate::Kept;
use crate::entries::{ENTRY_1, ENTRY_2, ENTRY_3, ENTRY_4, ENTRY_5, ENTRY_6};
use saved_bytes::parts;
use saved_layout::places::{ENTRY_ONE_BYTES, ENTRY_TWO_BYTES};

// Whether `size` bytes from byte `at` on differ.
fn part_differs(file: &[u8], output: &[u8], at: usize, size: usize) -> bool
    requires { (at + size ≤ length file.now) × (at + size ≤ length output.now) }
    ensures { result ≡ part_differs at size file.now output.now }
{
    let end = at + size;
    !parts::same(&file[at..end], &output[at..end])
}

// Whether an entry differs, or something before it did (`found`). An entry is compared with its sum where its body is
// kept, and without where it is replaced.
fn entry_differs(found: bool, file: &[u8], output: &[u8], at: usize, kept: bool) -> bool
    requires { (at + 14 ≤ length file.now) × (at + 14 ≤ length output.now) }
    ensures { result ≡ either found (entry_differs at kept file.now output.now) }
{
    if found {
        return true;
    }
    if kept {
        return part_differs(file, output, at, ENTRY_TWO_BYTES);
    }
    part_differs(file, output, at, ENTRY_ONE_BYTES)
}

pub fn contents_differ(file: &[u8], output: &[u8], pak: usize, kept: Kept) -> bool
    requires { (length file.now ≡ file_length_of Two pak) × (length output.now ≡ file_length_of Two pak) }
    ensures { result ≡ contents_differ pak kept file.now output.now }
{
    let start = part_differs(file, output, 0, ENTRY_1);
    let one = entry_differs(start, file, output, ENTRY_1, kept.processor);
    let two = entry_differs(one, file, output, ENTRY_2, kept.drawing);
    let three = entry_differs(two, file, output, ENTRY_3, kept.wram);
    let four = entry_differs(three, file, output, ENTRY_4, kept.vram);
    if pak == 0 {
        return entry_differs(four, file, output, ENTRY_5, kept.hardware);
    }
    let five = entry_differs(four, file, output, ENTRY_5, kept.pak);
    entry_differs(five, file, output, ENTRY_6, kept.hardware)
}
