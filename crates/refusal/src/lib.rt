// Why a call is refused: the papers' refusals in the order of their numbers, and the numbers.
#![tactic(auto)]

ghost use Rattle.std.specs.Prelude.{◌≡◌};
ghost use Rattle.refusal.specs.Number.{number_of, verdict_number};

// The refusals of papers 01 (1 to 8) and 02 (9 to 17). Its number is `u32::from` of it.
#[derive(Clone, Copy, Debug, PartialEq, Eq)]
pub enum Refusal {
    RomLength,
    WramLength,
    VramLength,
    PakLength,
    State,
    NotModelled,
    Frame,
    Index,
    FileLength,
    FileBytes,
    AccessList,
    Encoding,
    ProbeTarget,
    TraceLength,
    Display,
    NotAtReset,
    NoLayout,
}

impl From<Refusal> for u32 {
    ghost from_gives = { λ refusal number. number ≡ number_of refusal };

    // The papers' number of a refusal.
    fn from(refusal: Refusal) -> u32 {
        match refusal {
            Refusal::RomLength => 1,
            Refusal::WramLength => 2,
            Refusal::VramLength => 3,
            Refusal::PakLength => 4,
            Refusal::State => 5,
            Refusal::NotModelled => 6,
            Refusal::Frame => 7,
            Refusal::Index => 8,
            Refusal::FileLength => 9,
            Refusal::FileBytes => 10,
            Refusal::AccessList => 11,
            Refusal::Encoding => 12,
            Refusal::ProbeTarget => 13,
            Refusal::TraceLength => 14,
            Refusal::Display => 15,
            Refusal::NotAtReset => 16,
            Refusal::NoLayout => 17,
        }
    }
}

// 0 for a call that was accepted, else the refusal's number.
pub fn verdict_number(verdict: Result<(), Refusal>) -> u32
    ensures { result ≡ verdict_number verdict }
{
    verdict.map_or_else(u32::from, |()| 0)
}
