// Characters and cells: where a row of a character stands, and what is picked from it.
ghost use Rattle.std.specs.Prelude.{◌≡◌, ◌<◌, ◌≤◌};
ghost use Rattle.drawing_pixel.specs.Character.{two_bits_of, character_address_of, flipped_of, row_address_of};
ghost use Rattle.drawing_pixel.specs.Character.{pixel_value_of};
ghost use Rattle.drawing_pixel.specs.RowBits.{Picked};

use crate::field::pair;

// A position of 0 to 7, mirrored where flipped.
pub fn flipped(flip: bool, k: usize) -> usize
    requires { k < 8 }
    ensures { (result ≡ flipped_of flip k) × (result < 8) }
{
    if flip {
        return 7 - k;
    }
    k
}

// Where a character's 16 bytes begin.
pub fn character_address(c: usize) -> usize
    requires { c < 2048 }
    ensures { (result ≡ character_address_of c) × (result ≤ 131056) }
{
    24576 + c / 512 * 32768 + 16 * (c % 512)
}

// Where the character row of a cell begins.
pub fn row_address(cell: usize, r: usize) -> usize
    requires { r < 8 }
    ensures { (result ≡ row_address_of cell r) × (result < 131072) }
{
    character_address(cell % 2048) + 2 * flipped(cell / 4096 % 2 == 1, r)
}

// The value of a column of a character row: its two bits, shifted down from the column's position or, where flipped,
// from the mirrored one.
pub fn picked(row: usize, column: usize, flip: bool) -> usize
    requires { column < 8 }
    ensures { Picked row column flip result }
{
    pair(row, flipped(flip, column))
}

// The value of a column of a character row, by the cell's horizontal flip.
pub fn value(cell: usize, row: usize, column: usize) -> usize
    requires { column < 8 }
    ensures { (result ≡ pixel_value_of cell row column) × (result < 4) }
{
    picked(row, column, cell / 8192 % 2 == 1)
}

// What a palette makes of a value.
pub fn shade(palette: usize, v: usize) -> u16
    requires { v < 4 }
    ensures { (result ≡ two_bits_of palette v) × (result < 4) }
{
    pair(palette, v) as u16
}
