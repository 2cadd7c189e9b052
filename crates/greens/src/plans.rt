// A plan: twelve greens by value, one for each stream that a junction can have.
ghost use Rattle.std.specs.Prelude.{◌≡◌, ℕ, ◌<◌, length, slice_set};
ghost use Rattle.greens.specs.Plans.{no_green, green_of};
ghost use Rattle.greens.specs.Rounds.{later};

use crate::lights::Green;
use crate::seconds::Cycle;
use std::array;

// How many streams a junction can have.
pub const MOST_STREAMS: usize = 12;

#[derive(Clone, Copy, Debug, PartialEq, Eq)]
pub struct Plan {
    greens: [Green; MOST_STREAMS],
    ghost twelve: { length greens ≡ 12 },
}

impl Plan {
    // No stream has a green.
    pub fn new() -> Plan
        ensures { (k : ℕ) → green_of result.greens k ≡ no_green }
    {
        Plan {
            greens: [Green { from: 0, long: 0 }; MOST_STREAMS],
        }
    }

    // A stream's green; none past the twelfth.
    pub fn green(&self, stream: usize) -> Green
        ensures { result ≡ green_of self.now.greens stream }
    {
        self.greens
            .get(stream)
            .copied()
            .unwrap_or(Green { from: 0, long: 0 })
    }

    // Gives a stream another green; past the twelfth there is none to give it to.
    pub fn set(&mut self, stream: usize, green: Green)
        ensures { self.new.greens ≡ slice_set self.old.greens stream green }
    {
        // By its place: of a write through `get_mut` nothing is known afterwards.
        if stream < self.greens.len() {
            self.greens[stream] = green;
        }
    }

    // The same plan, begun so many seconds later.
    pub fn later(&self, cycle: Cycle, by: u8) -> Plan
        ensures { (k : ℕ) → k < 12 → green_of result.greens k ≡ later cycle.seconds by (green_of self.now.greens k) }
    {
        // The array's `map` would take twice the time.
        Plan {
            greens: array::from_fn(|stream| self.green(stream).later(cycle, by)),
        }
    }
}
