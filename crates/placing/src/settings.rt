// What is to be placed: greens of given lengths on a cycle, which of them cross, and when each may begin.
ghost use Rattle.std.specs.Prelude.{◌≡◌, ◌+◌, ◌*◌, ◌<◌, ◌≤◌, length, replicate, if◌then◌else◌, MatchOption, nat_lt, slice_set};
ghost use Rattle.placing.specs.Sizes.{most_greens, most_pairs};

use crate::sizes::{MOST, PAIRS};
use greens::Cycle;

// Lists side by side: the clauses speak of each by itself, and a search begins with the first seconds as they stand.
#[derive(Clone, Copy, Debug, PartialEq, Eq)]
pub struct Setting {
    pub(crate) cycle: Cycle,
    pub(crate) count: usize,
    pub(crate) long: [u8; MOST],
    // Row by row, a number for each green, as a junction hands its rows on: 0 for two that don't cross, else one more than the seconds to clear after the row's before the column's.
    pub(crate) table: [u8; PAIRS],
    pub(crate) lowest: [u8; MOST],
    pub(crate) highest: [u8; MOST],
    ghost few: { count ≤ most_greens },
    ghost sized: { (length long ≡ most_greens) × (length table ≡ most_pairs) },
    ghost framed: { (length lowest ≡ most_greens) × (length highest ≡ most_greens) },
}

impl Setting {
    // So many greens of no seconds, none of which cross, each to begin in second 0; none where there are more than there is room for.
    pub fn new(cycle: Cycle, count: usize) -> Option<Setting>
        ensures { MatchOption result (most_greens < count) (λ s. (s.cycle ≡ cycle) × (s.count ≡ count) × (s.long ≡ replicate most_greens 0) × (s.table ≡ replicate most_pairs 0) × (s.lowest ≡ replicate most_greens 0) × (s.highest ≡ replicate most_greens 0)) }
    {
        if count > MOST {
            return None;
        }
        Some(Setting {
            cycle,
            count,
            long: [0; MOST],
            table: [0; PAIRS],
            lowest: [0; MOST],
            highest: [0; MOST],
        })
    }

    // Makes a green so long.
    pub fn set_long(&mut self, green: usize, seconds: u8)
        ensures long { self.new.long ≡ slice_set self.old.long green seconds }
        ensures same { (self.new.cycle ≡ self.old.cycle) × (self.new.count ≡ self.old.count) × (self.new.table ≡ self.old.table) × (self.new.lowest ≡ self.old.lowest) × (self.new.highest ≡ self.old.highest) }
    {
        if green < MOST {
            self.long[green] = seconds;
        }
    }

    // Writes the number for a green before another: 0 if the two don't cross, else one more than the seconds to clear between them.
    pub fn set_entry(&mut self, first: usize, second: usize, number: u8)
        ensures table { self.new.table ≡ (if nat_lt second most_greens then slice_set self.old.table (first * most_greens + second) number else self.old.table) }
        ensures same { (self.new.cycle ≡ self.old.cycle) × (self.new.count ≡ self.old.count) × (self.new.long ≡ self.old.long) × (self.new.lowest ≡ self.old.lowest) × (self.new.highest ≡ self.old.highest) }
    {
        if first < MOST && second < MOST {
            self.table[first * MOST + second] = number;
        }
    }

    // Lets a green begin from the one second to the other.
    pub fn set_window(&mut self, green: usize, lowest: u8, highest: u8)
        ensures window { (self.new.lowest ≡ slice_set self.old.lowest green lowest) × (self.new.highest ≡ slice_set self.old.highest green highest) }
        ensures same { (self.new.cycle ≡ self.old.cycle) × (self.new.count ≡ self.old.count) × (self.new.long ≡ self.old.long) × (self.new.table ≡ self.old.table) }
    {
        if green < MOST {
            self.lowest[green] = lowest;
            self.highest[green] = highest;
        }
    }
}
