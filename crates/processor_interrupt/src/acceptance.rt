// Whether an interrupt is accepted before the next instruction, and of which level.
ghost use Rattle.std.specs.Prelude.{◌≡◌, ◌≢◌, ◌%◌, ◌<◌, true, false, MatchOption};
ghost use Rattle.processor_interrupt.specs.Interrupt.{level_of, allows_of, accepts_of};

use processor_machine::Mode;

// The highest raised level; none where no line is raised.
#[tactic(auto, unfolding(crate::specs::Interrupt::level_of))]
fn level(lines: u16) -> Option<u32>
    ensures { MatchOption result (lines % 32 ≡ 0) (λ n. (lines % 32 ≢ 0) × (n ≡ level_of lines) × (n < 5)) }
{
    match lines % 32 {
        0 => None,
        1 => Some(0),
        2..=3 => Some(1),
        4..=7 => Some(2),
        8..=15 => Some(3),
        _ => Some(4),
    }
}

// Whether PSW lets an interrupt of a level through: NP, EP and ID are clear, and I is at most the level.
#[tactic(auto, unfolding(crate::specs::Interrupt::allows_of))]
fn allows(psw: u32, level: u32) -> bool
    ensures { result ≡ allows_of psw level }
{
    psw / 32768 % 2 == 0 && psw / 16384 % 2 == 0 && psw / 4096 % 2 == 0 && psw / 65536 % 16 <= level
}

// The level of the interrupt that is accepted. The lines come first: with none raised nothing else is looked at.
#[tactic(auto, unfolding(crate::specs::Interrupt::accepts_of))]
pub fn accepted(lines: u16, psw: u32, mode: Mode) -> Option<u32>
    ensures { MatchOption result (accepts_of lines psw mode ≡ false)
        (λ n. (accepts_of lines psw mode ≡ true) × (n ≡ level_of lines) × (n < 5)) }
{
    let level = level(lines)?;
    if matches!(mode, Mode::Fatal) || !allows(psw, level) {
        return None;
    }
    Some(level)
}

// Whether an interrupt is accepted.
pub fn accepts(lines: u16, psw: u32, mode: Mode) -> bool
    ensures { result ≡ accepts_of lines psw mode }
{
    accepted(lines, psw, mode).is_some()
}
