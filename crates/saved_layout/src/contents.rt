// The contents of a file: a form's leading halfwords, the count of bodies, and for each its kind, offset and length,
// with its sum in form 2.
ghost use Rattle.std.specs.Prelude.{[], ◌∷◌, ◌++◌, ◌≡◌, ◌+◌, ◌<◌, ◌≤◌, length, take};
ghost use Rattle.saved_bytes.specs.Numbers.{bytes_of, halves_of};
ghost use Rattle.saved_bytes.specs.inner.Put.{put_at};
ghost use Rattle.saved_layout.specs.declared.Form.TheVariants.{Two};
ghost use Rattle.saved_layout.specs.Layout.{leading_of, contents_of, file_length_of};
ghost use Rattle.saved_layout.specs.File.{sums_of, bodies_in, contents_in, contents_ok};
ghost use Rattle.saved_layout.specs.inner.Laid.{laid_entry_of};

use crate::places::{
    DRAWING_AT, DRAWING_BYTES, ENTRY_TWO_BYTES, FIRST_ENTRY_TWO, HARDWARE_BYTES, PAK_AT,
    PROCESSOR_BYTES, VRAM_AT, VRAM_BYTES, WRAM_AT, WRAM_BYTES,
};
use crate::{Form, places};
use saved_bytes::{numbers, parts};

// The most halfwords that contents have: in form 2, with six entries.
const MOST_HALVES: usize = (FIRST_ENTRY_TWO + 6 * ENTRY_TWO_BYTES) / 2;

// A word from halfword `at` on.
fn put_word(table: &mut [u16; MOST_HALVES], at: usize, word: u32)
    requires { (length table.old ≡ 45) × (at ≤ 43) }
    ensures table_after { take (at + 2) table.new ≡ take at table.old ++ halves_of (word ∷ []) }
    ensures table_len { length table.new ≡ 45 }
{
    table[at] = (word % 65536) as u16;
    table[at + 1] = (word / 65536) as u16;
}

// Form 2 begins with halfwords 0 and 2. Then comes the count of bodies. Gives where the first entry starts.
fn put_leading(form: Form, count: u16, table: &mut [u16; MOST_HALVES]) -> usize
    requires { length table.old ≡ 45 }
    ensures table_after { take result table.new ≡ leading_of form ++ (count ∷ []) }
    ensures upper_bound { (result ≤ 3) × (length table.new ≡ 45) }
{
    match form {
        Form::One => {
            table[0] = count;
            1
        }
        Form::Two => {
            table[0] = 0;
            table[1] = 2;
            table[2] = count;
            3
        }
    }
}

// The entry of a body that starts at byte `offset`, from halfword `at` on, and none where the body is empty. Gives
// where the next entry starts.
fn put_entry(
    form: Form,
    table: &mut [u16; MOST_HALVES],
    at: usize,
    kind: u16,
    offset: usize,
    size: usize,
    sum: u32,
) -> usize
    requires table_len { (length table.old ≡ 45) × (at ≤ 38) }
    requires offset_bound { (offset < 4294967296) × (size < 4294967296) }
    ensures table_after { take result table.new ≡ take at table.old ++ laid_entry_of form kind offset size sum }
    ensures upper_bound { (result ≤ at + 7) × (length table.new ≡ 45) }
{
    if size == 0 {
        return at;
    }
    table[at] = kind;
    put_word(table, at + 1, offset as u32);
    put_word(table, at + 3, size as u32);
    match form {
        Form::One => at + 5,
        Form::Two => {
            put_word(table, at + 5, sum);
            at + 7
        }
    }
}

// The contents by the sums of kinds 1 to 6. Gives how many halfwords they have.
fn lay(form: Form, pak: usize, sums: [u32; 6], table: &mut [u16; MOST_HALVES]) -> usize
    requires { (length table.old ≡ 45) × (pak ≤ 16777216) }
    ensures table_after { take result table.new ≡ contents_of form pak sums }
    ensures upper_bound { (result ≤ 45) × (length table.new ≡ 45) }
{
    let count = places::count(form, pak);
    let first = places::first(form, pak);
    let last = places::last_bytes(form);
    let one = put_leading(form, count as u16, table);
    let two = put_entry(form, table, one, 1, first, PROCESSOR_BYTES, sums[0]);
    let three = put_entry(
        form,
        table,
        two,
        2,
        first + DRAWING_AT,
        DRAWING_BYTES,
        sums[1],
    );
    let four = put_entry(form, table, three, 3, first + WRAM_AT, WRAM_BYTES, sums[2]);
    let five = put_entry(form, table, four, 4, first + VRAM_AT, VRAM_BYTES, sums[3]);
    let six = put_entry(form, table, five, 5, first + PAK_AT, pak, sums[4]);
    put_entry(form, table, six, 6, first + PAK_AT + pak, last, sums[5])
}

// The sums of the bodies of a file, or of a buffer that holds them, in form 2.
pub fn sums(file: &[u8], pak: usize) -> [u32; 6]
    requires { (length file.now ≡ file_length_of Two pak) × (pak ≤ 16777216) }
    ensures { result ≡ sums_of (bodies_in Two pak file.now) }
{
    let processor = places::first(Form::Two, pak);
    let drawing = processor + DRAWING_AT;
    let wram = processor + WRAM_AT;
    let vram = processor + VRAM_AT;
    let ram = processor + PAK_AT;
    let hardware = ram + pak;
    let end = hardware + HARDWARE_BYTES;
    [
        parts::sum(&file[processor..drawing]),
        parts::sum(&file[drawing..wram]),
        parts::sum(&file[wram..vram]),
        parts::sum(&file[vram..ram]),
        parts::sum(&file[ram..hardware]),
        parts::sum(&file[hardware..end]),
    ]
}

// The sums that a form stores: form 1 stores none.
fn stored_sums(form: Form, file: &[u8], pak: usize) -> [u32; 6]
    requires { (length file.now ≡ file_length_of form pak) × (pak ≤ 16777216) }
    ensures { contents_of form pak result ≡ contents_in form pak file.now }
{
    match form {
        Form::One => [0u32; 6],
        Form::Two => sums(file, pak),
    }
}

// The contents into a buffer whose bodies stand at their places.
pub fn put(form: Form, output: &mut [u8], pak: usize)
    requires { (length output.old ≡ file_length_of form pak) × (pak ≤ 16777216) }
    ensures { output.new ≡ put_at output.old 0 (bytes_of (contents_in form pak output.old)) }
{
    let sums = stored_sums(form, output, pak);
    let mut table = [0u16; MOST_HALVES];
    let count = lay(form, pak, sums, &mut table);
    numbers::put_halves(output, 0, &table[..count]);
}

// Whether a file of the due length begins with the contents.
pub fn ok(form: Form, file: &[u8], pak: usize) -> bool
    requires { (length file.now ≡ file_length_of form pak) × (pak ≤ 16777216) }
    ensures { result ≡ contents_ok form pak file.now }
{
    let sums = stored_sums(form, file, pak);
    let mut table = [0u16; MOST_HALVES];
    let count = lay(form, pak, sums, &mut table);
    numbers::same_halves(file, &table[..count])
}
