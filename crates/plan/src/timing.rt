ghost use Rattle.std.specs.Prelude.{◌≡◌, Some};
ghost use Rattle.plan.specs.Plans.{start_or, choice_or, retimed};

use crate::gate::{Gate, Timing};

impl Gate {
    // When the gate starts, 0 where it has no timing. No `Option`, here and below: the definitions of start and choice are 0 there.
    pub fn start(self) -> u32
        ensures { result ≡ start_or self.timing }
    {
        self.timing.map_or(0, |timing| timing.start)
    }

    // Which of the offered routes it takes, 0 where it has no timing.
    pub fn choice(self) -> u8
        ensures { result ≡ choice_or self.timing }
    {
        self.timing.map_or(0, |timing| timing.choice)
    }

    // Gives the gate another start and choice.
    pub fn retime(&mut self, timing: Timing)
        ensures { self.new ≡ retimed self.old (Some timing) }
    {
        self.timing = Some(timing);
    }
}
