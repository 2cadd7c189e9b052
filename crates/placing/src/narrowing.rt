// Bounds made narrower by what has to be between two greens, until nothing moves.
ghost use Rattle.std.specs.Prelude.{MatchOption};
ghost use Rattle.placing.specs.Bounds.{Nobody};
ghost use Rattle.placing.specs.Steps.{Far, Met, Round, Narrowed};

use crate::pairs::Pair;
use crate::room::Bounds;
use crate::spacing::Gaps;

impl Pair<'_> {
    // By how much the first has to begin before the second's next turn.
    fn distance(&self, bounds: &Bounds) -> u32
        ensures { Far self.now.gaps.now bounds.now self.now.first self.now.second result }
    {
        let gap = u32::from(self.gap());
        if self.comes_first(bounds) {
            gap + self.gaps.round()
        } else {
            gap
        }
    }

    // Narrows the bounds of both, and says whether one moved; none where that leaves one of them nowhere to begin.
    fn meet(&self, bounds: &mut Bounds) -> Option<bool>
        ensures { MatchOption result (Nobody self.now.gaps.now bounds.old) (λ moved. Met self.now.gaps.now bounds.old bounds.new self.now.first self.now.second moved) }
    {
        let round = self.gaps.round();
        let far = self.distance(bounds);
        let last = u32::from(bounds.high[self.second]) + round;
        if far > last {
            return None;
        }
        let earliest = (u32::from(bounds.low[self.first]) + far).saturating_sub(round);
        let raised = bounds.raise(self.second, earliest)?;
        let lowered = bounds.lower(self.first, last - far)?;
        Some(raised | lowered)
    }
}

impl Gaps {
    // Narrows the bounds of any two greens once. Two loops: a `try_fold` in a `try_fold`, which hand on whether something moved, would be no plainer.
    fn go_round(&self, bounds: &mut Bounds) -> Option<bool>
        ensures { MatchOption result (Nobody self.now bounds.old) (λ moved. Round self.now bounds.old bounds.new self.now.count moved) }
    {
        let mut moved = false;
        for first in 0..self.count {
            for second in 0..self.count {
                let pair = Pair {
                    gaps: self,
                    first,
                    second,
                };
                moved |= pair.meet(bounds)?;
            }
        }
        Some(moved)
    }

    // Narrows all bounds until nothing moves; none where that leaves a green nowhere to begin.
    pub(crate) fn narrow(&self, bounds: &mut Bounds) -> Option<()>
        ensures { MatchOption result (Nobody self.now bounds.old) (λ _. Narrowed self.now bounds.old bounds.new) }
    {
        while self.go_round(bounds)? {}
        Some(())
    }
}
