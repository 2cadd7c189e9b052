// By how much each green has to begin before each other, where it comes first.
ghost use Rattle.std.specs.Prelude.{◌≡◌, ◌≤◌, All, [], length, slice_index, slice_index_or};
ghost use Rattle.placing.specs.Sizes.{most_greens};

use crate::sizes::MOST;
use greens::Cycle;

#[derive(Clone, Copy, Debug, PartialEq, Eq)]
pub struct Gaps {
    pub(crate) cycle: Cycle,
    pub(crate) count: usize,
    // A row for each green, in it a number for each: 0 for two that may be on together, since a distance of 0 asks for nothing.
    pub(crate) gap: [[u16; MOST]; MOST],
    ghost few: { count ≤ most_greens },
    ghost sized: { length gap ≡ most_greens },
    ghost square: { All (λ row. length row ≡ most_greens) gap },
}

impl Gaps {
    // The gap from one green to another; 0 past the last that there is room for.
    pub(crate) fn between(&self, first: usize, second: usize) -> u16
        ensures { result ≡ slice_index (slice_index_or self.now.gap first []) second }
    {
        let row = self.gap.get(first);
        row.and_then(|row| row.get(second)).copied().unwrap_or(0)
    }

    // How many seconds it is to a green's next turn.
    pub(crate) fn round(&self) -> u32
        ensures { result ≡ self.now.cycle.seconds }
    {
        u32::from(self.cycle.seconds())
    }
}
