// Where the cell of a background lies: wrapping, the arrangement of maps, and the overplane.
ghost use Rattle.std.specs.Prelude.{◌≡◌, ◌+◌, ◌-◌, ◌*◌, ◌%◌, ◌^◌, ◌<◌, ◌≤◌, min, not, ◌&&◌};
ghost use Rattle.drawing_pixel.specs.World.{over_of};
ghost use Rattle.drawing_pixel.specs.inner.BiasedCell.{cell_address_biased, inside_biased};
ghost use Rattle.drawing_background.specs.inner.Row.{MapsOf};
ghost use Rattle.drawing_pixel.specs.inner.Halfwords.{halfwords_of};

use drawing_pixel::field::wide;
use drawing_pixel::world::World;

// The low k bits of a number.
pub fn low_bits(u: usize, k: usize) -> usize
    requires { k < 10 }
    ensures { (result ≡ u % 2 ^ k) × (result < 512) }
{
    u & ((1 << k) - 1)
}

// 2^k cells: so many has a background side by side.
pub fn cells(k: usize) -> usize
    requires { k < 10 }
    ensures { (result ≡ 2 ^ k) × (result ≤ 512) }
{
    1 << k
}

// A map row times the 2^k maps that stand side by side.
pub fn maps_above(r: usize, k: usize) -> usize
    requires { (r < 8) × (k < 4) }
    ensures { (result ≡ r * 2 ^ k) × (result < 64) }
{
    r << k
}

// The exponent of how many maps stand side by side before they repeat.
pub fn across(scx: usize, scy: usize) -> usize
    requires { (scx < 4) × (scy < 4) }
    ensures { (result ≡ min scx (3 - scy)) × (result < 4) }
{
    if scx <= 3 - scy {
        return scx;
    }
    3 - scy
}

// The map at a map column and row of a background whose first map is given, with 2^k maps side by side.
pub fn map_at(first: usize, k: usize, column: usize, r: usize) -> usize
    requires { (first < 16) × ((k < 4) × (r < 8)) }
    ensures { (result ≡ (first + (r * 2 ^ k + column % 2 ^ k)) % 16) × (result < 16) }
{
    (first + (maps_above(r, k) + low_bits(column, k))) % 16
}

// A cell column or row is kept plus an eighth of a source pixel's 2^23.
const CELL_BIAS: usize = 1048576;

// How a world's background is made of maps, worked out once for many cells: OVER, the first map, the exponent of how
// many maps stand side by side before they repeat, and the exponents of the background's width and height in cells.
#[derive(Clone, Copy)]
pub struct Maps {
    pub over: bool,
    pub first: usize,
    pub beside: usize,
    pub across: usize,
    pub down: usize,
}

// The maps of a world's background.
pub fn maps_of(w: World) -> Maps
    ensures { MapsOf (halfwords_of w) result.over result.first result.beside result.across result.down }
{
    let flags = wide(w.flags);
    let scx = flags / 1024 % 4;
    let scy = flags / 256 % 4;
    let over = flags / 128 % 2 == 1;
    let first = flags % 16;
    let beside = across(scx, scy);
    let across = 6 + scx;
    let down = 6 + scy;
    Maps {
        over,
        first,
        beside,
        across,
        down,
    }
}

// Whether a cell column and row lie in a world's background.
pub fn inside(w: World, maps: Maps, u: usize, v: usize) -> bool
    requires { MapsOf (halfwords_of w) maps.over maps.first maps.beside maps.across maps.down }
    ensures { result ≡ inside_biased (halfwords_of w) u v }
{
    if u < CELL_BIAS {
        return false;
    }
    if CELL_BIAS + cells(maps.across) <= u {
        return false;
    }
    if v < CELL_BIAS {
        return false;
    }
    v < CELL_BIAS + cells(maps.down)
}

// Whether the overplane is used at a cell column and row: OVER is set, and they lie outside.
pub fn outside(w: World, maps: Maps, u: usize, v: usize) -> bool
    requires { MapsOf (halfwords_of w) maps.over maps.first maps.beside maps.across maps.down }
    ensures { result ≡ (over_of (halfwords_of w) && not (inside_biased (halfwords_of w) u v)) }
{
    if !maps.over {
        return false;
    }
    !inside(w, maps, u, v)
}

// Where the cell used at a cell column and row lies, by the maps of its world: the overplane's, or else that of a map,
// column and row wrapped to the background's size.
pub fn address_in(w: World, maps: Maps, u: usize, v: usize) -> usize
    requires { MapsOf (halfwords_of w) maps.over maps.first maps.beside maps.across maps.down }
    ensures { (result ≡ cell_address_biased (halfwords_of w) u v) × (result < 262143) }
{
    if outside(w, maps, u, v) {
        return 131072 + 2 * wide(w.overplane);
    }
    let column = low_bits(u, maps.across) / 64;
    let row = low_bits(v, maps.down) / 64;
    let map = map_at(maps.first, maps.beside, column, row);
    131072 + 8192 * map + 2 * (64 * (v % 64) + u % 64)
}

// Where the cell used at a cell column and row of a world lies.
pub fn cell_address(w: World, u: usize, v: usize) -> usize
    ensures { (result ≡ cell_address_biased (halfwords_of w) u v) × (result < 262143) }
{
    address_in(w, maps_of(w), u, v)
}
