// What the bounds tell of the order of two greens.
ghost use Rattle.placing.specs.Steps.{Known};

use crate::pairs::Pair;
use crate::room::Bounds;

impl Pair<'_> {
    // Whether the first is known to come before the second: it was put there, or the second can't come first.
    pub(crate) fn comes_first(&self, bounds: &Bounds) -> bool
        ensures { Known self.now.gaps.now bounds.now self.now.first self.now.second result }
    {
        let earliest = u32::from(bounds.low[self.second]) + u32::from(self.turned().gap());
        bounds.before[self.first][self.second] || earliest > u32::from(bounds.high[self.first])
    }
}
