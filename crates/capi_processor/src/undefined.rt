// The masks of a step at the boundary.
ghost use Rattle.std.specs.Prelude.{◌≡◌};
ghost use Rattle.capi_processor.specs.Undefined.{undefined_out};

use processor_undefined::Undefined;

// Which bytes that a step read are undefined: of its first halfword, of its second, and of its load.
#[repr(C)]
#[derive(Clone, Copy)]
pub struct VbUndefined {
    pub first: u32,
    pub second: u32,
    pub load: u32,
}

pub fn undefined_out(u: Undefined) -> VbUndefined
    ensures { result ≡ undefined_out u }
{
    VbUndefined {
        first: u.first,
        second: u.second,
        load: u.load,
    }
}
