// VB_MISUSE, what the papers have no number for.
ghost use Rattle.std.specs.Prelude.{◌≡◌};
ghost use Rattle.capi_bus.specs.Misuse.{misuse_number};

use refusal::Refusal;

pub const VB_MISUSE: u32 = 255;

// VB_MISUSE, unless one of 1 to 5 comes first.
pub fn misuse_number(v: Result<(), Refusal>) -> u32
    ensures { result ≡ misuse_number v }
{
    v.map_or_else(u32::from, |()| VB_MISUSE)
}
