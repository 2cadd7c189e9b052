// The search: bounds narrowed, a group counted that may be too large, two greens that clash put in the one order and then in the other.
ghost use Rattle.std.specs.Prelude.{MatchOption};
ghost use Rattle.placing.specs.Bounds.{Nobody};
ghost use Rattle.placing.specs.Searches.{Put, NotFirst, Found, start_of};

use crate::answers::Starts;
use crate::pairs::Pair;
use crate::room::Bounds;
use crate::shares::Group;
use crate::spacing::Gaps;

impl Pair<'_> {
    // The same bounds with the first put before the second; none where it can't be.
    fn put(&self, bounds: Bounds) -> Option<Bounds>
        ensures { MatchOption result (NotFirst self.now.gaps.now bounds self.now.first self.now.second) (λ t. Put self.now.gaps.now bounds t self.now.first self.now.second) }
    {
        let mut put = bounds;
        let earliest = u32::from(put.low[self.first]) + u32::from(self.gap());
        put.raise(self.second, earliest)?;
        put.before[self.first][self.second] = true;
        Some(put)
    }
}

impl Gaps {
    // Starts in order that obey the bounds; none where there are none.
    pub(crate) fn search(&self, group: &Group, bounds: Bounds) -> Option<Starts>
        ensures { MatchOption result (Nobody self.now bounds) (λ t. Found self.now bounds (start_of t)) }
    {
        let mut narrowed = bounds;
        self.narrow(&mut narrowed)?;
        let Some(clash) = self.tightest(&narrowed) else {
            return Some(Starts { at: narrowed.low });
        };
        if self.crowded(&narrowed, group) {
            return None;
        }
        let pair = Pair {
            gaps: self,
            first: clash.first,
            second: clash.second,
        };
        if let Some(one) = pair.put(narrowed) {
            if let Some(starts) = self.search(group, one) {
                return Some(starts);
            }
        }
        let other = pair.turned().put(narrowed)?;
        self.search(group, other)
    }
}
