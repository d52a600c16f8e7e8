// The format of each operation: the table of `specs/Format`, a row for each number.
ghost use Rattle.std.specs.Prelude.{◌≡◌};
ghost use Rattle.processor_encode.specs.Format.{format_of};

// Which fields an instruction has, and where they stand. `Unlisted`, which is no instruction's, is no `None`: it has its
// row in each table of specs/, as the others have.
#[derive(Clone, Copy, Debug, PartialEq, Eq)]
pub enum Format {
    Registers,
    Target,
    SignedImmediate,
    UnsignedImmediate,
    Condition,
    Vector,
    Bare,
    SystemRegister,
    Branch,
    Jump,
    SignedLong,
    UnsignedLong,
    Extended,
    Exchange,
    Unlisted,
}

impl Format {
    // The format of an operation.
    #[tactic(auto, using(crate::proofs::Runs::runs), unfolding(crate::specs::Format::format_of, crate::specs::Format::short_formats, crate::specs::Format::long_formats, crate::specs::Format::extended_formats))]
    pub fn of(operation: u32) -> Format
        ensures { result ≡ format_of operation }
    {
        match operation {
            0..=5 | 7..=15 => Format::Registers,
            6 => Format::Target,
            16 | 17 | 19 => Format::SignedImmediate,
            18 => Format::Condition,
            20 | 21 | 23 => Format::UnsignedImmediate,
            22 | 25 | 26 | 30 => Format::Bare,
            24 => Format::Vector,
            28 | 29 => Format::SystemRegister,
            32 => Format::Branch,
            40 | 41 | 48 | 49 | 51..=53 | 55..=57 | 59..=61 | 63 => Format::SignedLong,
            42 | 43 => Format::Jump,
            44..=47 => Format::UnsignedLong,
            64 | 66..=71 | 74..=76 => Format::Extended,
            72 | 73 => Format::Exchange,
            _ => Format::Unlisted,
        }
    }
}
