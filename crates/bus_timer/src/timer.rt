// The timer: what a tick does to it and to its line.
ghost use Rattle.std.specs.Prelude.{◌≡◌};
ghost use Rattle.bus_timer.specs.Timer.{start_of, reached_zero_of, tick_of};

use crate::{TimerLines, bits};

impl TimerLines {
    // What a tick counts down from.
    #[tactic(auto, unfolding(crate::specs::Timer::start_of))]
    fn start(self) -> u16
        ensures { result ≡ start_of self }
    {
        if self.count == 0 {
            self.reload
        } else {
            self.count
        }
    }

    // The count reached zero: Z-Stat is set, and the timer's line is raised where Tim-Z-Int asks for it.
    #[tactic(auto, unfolding(crate::specs::Timer::reached_zero_of))]
    fn reached_zero(self) -> TimerLines
        ensures { result ≡ reached_zero_of self }
    {
        let interrupts = self.control / 8 % 2 == 1;
        TimerLines {
            lines: if interrupts {
                bits::set_second(self.lines)
            } else {
                self.lines
            },
            count: 0,
            control: bits::set_second(self.control),
            ..self
        }
    }

    // One tick.
    #[tactic(auto, unfolding(crate::specs::Timer::tick_of, crate::specs::Timer::counted_of, crate::specs::Timer::ticked_count_of))]
    pub fn tick(self) -> TimerLines
        ensures { result ≡ tick_of self }
    {
        if self.control % 2 == 0 {
            return self;
        }
        let from = self.start();
        if from < 2 {
            return self.reached_zero();
        }
        TimerLines {
            count: from - 1,
            ..self
        }
    }
}
