// Which bytes of an access are undefined (paper 02, W2): a mask with bit k set where byte k, counted from the aligned
// address, is undefined. The address alone decides, so no memory is read for it, and the loads and stores of the crate
// bus and a run of instructions carry no masks. These functions are `pub` for the crates above.
#![tactic(auto)]

ghost use Rattle.std.specs.Prelude.{◌≡◌, ◌-◌, ◌%◌, ◌^◌, ◌<◌};
ghost use Rattle.word.specs.Choose.{member};
ghost use Rattle.word.specs.Width.{bytes_of};
ghost use Rattle.bus.specs.Memory.{Memory};
ghost use Rattle.bus_defined.specs.Defined.{register_addresses, undefined_of};

use bus::{Place, map};
use word::Width;

// Whether byte v of the VIP is of a register that document 000 lists. The drawing registers are tested first.
fn listed(v: u32) -> bool
    ensures { result ≡ member (v - v % 2) register_addresses }
{
    matches!(
        v,
        0x5F848..0x5F850
            | 0x5F860..0x5F872
            | 0x5F800..0x5F806
            | 0x5F820..0x5F82C
            | 0x5F82E..0x5F832
            | 0x5F840..0x5F846
    )
}

// The mask of a halfword. Both bytes are of one kind, because every range and register begins at an even address; and
// no register is listed outside the register range, so that range needs no separate test.
fn half(address: u32) -> u32
    ensures { ((m : Memory) → result ≡ undefined_of m 2 address) × (result < 4) }
{
    match map::place_of(address) {
        Place::Register(v) => if listed(v) { 0 } else { 3 },
        _ => 0,
    }
}

// The mask of an access: a byte's is the low bit of its halfword's, and a word's has those of its halfwords.
pub fn undefined(width: Width, address: u32) -> u32
    ensures { ((m : Memory) → result ≡ undefined_of m (bytes_of width) address) × (result < 2 ^ bytes_of width) }
{
    match width {
        Width::Byte => half(address) % 2,
        Width::Half => half(address),
        Width::Word => {
            let first = address - address % 4;
            half(first) + 4 * half(first + 2)
        }
    }
}
