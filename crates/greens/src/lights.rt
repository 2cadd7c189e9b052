// A green: from a second on, for so many seconds, round the cycle's end.
ghost use Rattle.std.specs.Prelude.{◌≡◌, ◌<◌, ◌≤◌};
ghost use Rattle.greens.specs.Greens.{on, count_to};
ghost use Rattle.greens.specs.Rounds.{later};

use crate::seconds::Cycle;

#[derive(Clone, Copy, Debug, PartialEq, Eq)]
pub struct Green {
    pub from: u8,
    pub long: u8,
}

impl Green {
    // Whether it is on in a second of the cycle.
    pub fn on(self, cycle: Cycle, second: u8) -> bool
        ensures { result ≡ on cycle.seconds self second }
    {
        cycle.after(self.from, second) < self.long
    }

    // The same green, begun so many seconds later.
    pub fn later(self, cycle: Cycle, by: u8) -> Green
        ensures { result ≡ later cycle.seconds by self }
    {
        Green {
            from: cycle.later(self.from, by),
            long: self.long,
        }
    }

    // In how many seconds of the cycle it is on: as many as it says.
    pub fn seconds(self, cycle: Cycle) -> u8
        ensures counted { result ≡ count_to cycle.seconds (on cycle.seconds self) }
        ensures stated { self.from < cycle.seconds → self.long ≤ cycle.seconds → result ≡ self.long }
    {
        (0..cycle.seconds())
            .map(|second| u8::from(self.on(cycle, second)))
            .sum()
    }
}
