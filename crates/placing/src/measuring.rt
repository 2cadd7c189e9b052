// The gaps between the greens of a setting, worked out once for all of a search.
ghost use Rattle.std.specs.Prelude.{◌≡◌, ◌<◌, slice_index};
ghost use Rattle.placing.specs.Gaps.{GapsFrom, Measured};
ghost use Rattle.placing.specs.Orders.{gap_of, tied};
ghost use Rattle.placing.specs.Settings.{entry_of, task_of};
ghost use Rattle.placing.specs.Sizes.{most_greens};

use crate::settings::Setting;
use crate::sizes::MOST;
use crate::spacing::Gaps;
use std::array::from_fn;

impl Setting {
    // How long a green is; 0 past the last that there is room for.
    fn long(&self, green: usize) -> u8
        ensures { result ≡ slice_index self.now.long green }
    {
        self.long.get(green).copied().unwrap_or(0)
    }

    // The number for a green before another; 0 past the last that there is room for.
    fn entry(&self, first: usize, second: usize) -> u8
        ensures { second < most_greens → result ≡ entry_of self.now first second }
    {
        if first < MOST && second < MOST {
            self.table[first * MOST + second]
        } else {
            0
        }
    }

    fn are_tied(&self, first: usize, second: usize) -> bool
        ensures { first < most_greens → second < most_greens → result ≡ tied (task_of self.now) first second }
    {
        // `&` and no `&&`: with a branch for each of 144 pairs the search of a small junction took a fifth longer.
        let cross = (self.entry(first, second) > 0) | (self.entry(second, first) > 0);
        (first != second) & ((self.long(first) > 0) & ((self.long(second) > 0) & cross))
    }

    fn gap(&self, first: usize, second: usize) -> u16
        ensures { first < most_greens → second < most_greens → result ≡ gap_of (task_of self.now) first second }
    {
        if !self.are_tied(first, second) {
            return 0;
        }
        let clear = self.entry(first, second).saturating_sub(1);
        u16::from(self.long(first)) + u16::from(clear)
    }

    fn gaps_from(&self, first: usize) -> [u16; MOST]
        ensures { GapsFrom (task_of self.now) first result }
    {
        from_fn(|second| self.gap(first, second))
    }

    pub(crate) fn measure(&self) -> Gaps
        ensures { Measured (task_of self.now) result }
    {
        Gaps {
            cycle: self.cycle,
            count: self.count,
            gap: from_fn(
                |first|
                    ensures { GapsFrom (task_of self.entry.now) first result }
                { self.gaps_from(first) },
            ),
        }
    }
}
