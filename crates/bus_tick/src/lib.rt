// The timer's public call: a tick, which tests refusal 5 of the record it is given.
#![tactic(auto)]

ghost use Rattle.std.specs.Prelude.{◌≡◌};
ghost use Rattle.bus_tick.specs.Tick.{ticked_from, checked_tick_of};

use bus_timer::TimerLines;
use refusal::Refusal;

// One tick of the interval that the timer's control has chosen: the record afterwards.
#[tactic(auto, unfolding(crate::specs::Tick::checked_tick_of))]
pub fn tick(hardware: TimerLines) -> Result<TimerLines, Refusal>
    ensures { ticked_from hardware result ≡ checked_tick_of hardware }
{
    if !hardware.is_ok() {
        return Err(Refusal::State);
    }
    Ok(hardware.tick())
}
