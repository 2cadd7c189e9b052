// Two greens to be put in order next: those with the least room among all that aren't in order at their low bounds.
ghost use Rattle.std.specs.Prelude.{◌≡◌, ℕ, ◌<◌, ◌≤◌, ◌⊎◌, Some, None, MatchOption};
ghost use Rattle.placing.specs.Clashes.{OneFirst, Clashing};

use crate::pairs::Pair;
use crate::room::Bounds;
use crate::spacing::Gaps;

#[derive(Clone, Copy, Debug, PartialEq, Eq)]
pub struct Clash {
    pub(crate) first: usize,
    pub(crate) second: usize,
    // For how many seconds in all the two orders leave a choice.
    room: u32,
}

impl Pair<'_> {
    // Whether the two clash, with the one first that may begin earlier.
    fn weigh(&self, bounds: &Bounds) -> Option<Clash>
        ensures { MatchOption result (OneFirst self.now.gaps.now bounds.now self.now.first self.now.second) (λ c. Clashing self.now.gaps.now bounds.now c.first c.second) }
    {
        let low = u32::from(bounds.low[self.first]);
        let other_low = u32::from(bounds.low[self.second]);
        let there = low + u32::from(self.gap());
        let back = other_low + u32::from(self.turned().gap());
        if there <= other_low || back <= low {
            return None;
        }
        let high = u32::from(bounds.high[self.first]) + u32::from(bounds.high[self.second]);
        let room = high.saturating_sub(there + back);
        let (first, second) = if low <= other_low {
            (self.first, self.second)
        } else {
            (self.second, self.first)
        };
        Some(Clash {
            first,
            second,
            room,
        })
    }
}

fn tighter(one: Option<Clash>, other: Option<Clash>) -> Option<Clash>
    ensures { MatchOption result ((one ≡ None) × (other ≡ None)) (λ c. (one ≡ Some c) ⊎ (other ≡ Some c)) }
{
    match (one, other) {
        (Some(here), Some(there)) if there.room < here.room => other,
        (None, _) => other,
        _ => one,
    }
}

impl Gaps {
    fn tightest_with(&self, bounds: &Bounds, one: usize) -> Option<Clash>
        requires { one < self.now.count }
        ensures { MatchOption result ((b : ℕ) → b ≤ one → OneFirst self.now bounds.now one b) (λ c. Clashing self.now bounds.now c.first c.second) }
    {
        (0..one + 1).fold(None, |best, other| {
            let clash = self.pair(one, other).and_then(|pair| pair.weigh(bounds));
            tighter(best, clash)
        })
    }

    pub(crate) fn tightest(&self, bounds: &Bounds) -> Option<Clash>
        ensures { MatchOption result ((a : ℕ) → a < self.now.count → (b : ℕ) → b ≤ a → OneFirst self.now bounds.now a b) (λ c. Clashing self.now bounds.now c.first c.second) }
    {
        (0..self.count).fold(
            None,
            |best, one| tighter(best, self.tightest_with(bounds, one)),
        )
    }
}
