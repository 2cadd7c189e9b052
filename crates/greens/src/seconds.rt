// A cycle: 1 to 120 seconds, numbered from 0, after the last of which comes the first.
ghost use Rattle.std.specs.Prelude.{◌≡◌, ◌+◌, ◌%◌, ◌≤◌, MatchOption};
ghost use Rattle.greens.specs.Circle.{after};

// How many seconds a cycle can have.
pub const MOST_SECONDS: u8 = 120;

#[derive(Clone, Copy, Debug, PartialEq, Eq)]
pub struct Cycle {
    seconds: u8,
    ghost fits: { (1 ≤ seconds) × (seconds ≤ 120) },
}

impl Cycle {
    // A cycle of so many seconds, or none where there can be no such cycle.
    pub fn new(seconds: u64) -> Option<Cycle>
        ensures { MatchOption result ((1 ≤ seconds) × (seconds ≤ 120) → ⊥) (λ c. c.seconds ≡ seconds) }
    {
        if seconds >= 1 && seconds <= u64::from(MOST_SECONDS) {
            // Proved to lose nothing, as each cast that narrows: `try_from` would ask for an arm that can't happen.
            Some(Cycle {
                seconds: seconds as u8,
            })
        } else {
            None
        }
    }

    pub fn seconds(self) -> u8
        ensures { result ≡ self.seconds }
    {
        self.seconds
    }

    // The second that comes so many seconds later, round the cycle's end.
    pub fn later(self, second: u8, by: u8) -> u8
        ensures { result ≡ (second + by) % self.seconds }
    {
        ((u16::from(second) + u16::from(by)) % u16::from(self.seconds)) as u8
    }

    // How many seconds after `from` a second comes, round the cycle's end.
    pub fn after(self, from: u8, second: u8) -> u8
        ensures { result ≡ after self.seconds from second }
    {
        let ahead = self.seconds.saturating_sub(from);
        self.later(second, ahead)
    }
}
