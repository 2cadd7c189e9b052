// A junction: a cycle, its streams, and for each two of them whether they cross and what has to be clear between their greens.
ghost use Rattle.std.specs.Prelude.{◌≡◌, ◌*◌, ◌<◌, ◌≤◌, true, length, MatchOption};
ghost use Rattle.crossing.specs.Tables.{both_ways, row_of};

use greens::{Cycle, MOST_STREAMS};

// How many numbers a table can have.
pub(crate) const MOST_NUMBERS: usize = MOST_STREAMS * MOST_STREAMS;

#[derive(Clone, Copy, Debug, PartialEq, Eq)]
pub struct Stream {
    // For how many seconds its green has to be on at least.
    pub least: u8,
    // How many come in a cycle, one of whom goes in each green second.
    pub comes: u8,
}

#[derive(Clone, Copy, Debug, PartialEq, Eq)]
pub struct Junction {
    pub(crate) cycle: Cycle,
    // How many there are, of the twelve that lie here by value: memory is fixed, and no heap is asked.
    pub(crate) count: usize,
    pub(crate) streams: [Stream; MOST_STREAMS],
    // Row by row, `count` numbers each, as they were lent: 0 for two that don't cross, else one more than the seconds to clear after the row's before the column's.
    pub(crate) table: [u8; MOST_NUMBERS],
    ghost few: { (1 ≤ count) × (count ≤ 12) },
    ghost sized: { (length streams ≡ 12) × (length table ≡ 144) },
    ghost both: { both_ways count table ≡ true },
}

// A table with a number for each two of so many streams, row by row; there may be more numbers past its last row.
#[derive(Clone, Copy)]
pub(crate) struct Table<'a> {
    pub(crate) numbers: &'a [u8],
    pub(crate) width: usize,
    ghost whole: { width * width ≤ length numbers.now },
}

impl<'a> Table<'a> {
    // The table that the numbers are; none where they are more or fewer.
    pub(crate) fn new(numbers: &'a [u8], width: usize) -> Option<Table<'a>>
        ensures { MatchOption result (length numbers.now ≡ width * width → ⊥) (λ t. (length numbers.now ≡ width * width) × (t.numbers.now ≡ numbers.now) × (t.width ≡ width)) }
    {
        if width.checked_mul(width) == Some(numbers.len()) {
            Some(Table { numbers, width })
        } else {
            None
        }
    }

    pub(crate) fn row(&self, a: usize) -> &'a [u8]
        requires there { a < self.now.width }
        ensures row { result.now ≡ row_of self.now.width self.now.numbers.now a }
        ensures len { length result.now ≡ self.now.width }
    {
        let start = a * self.width;
        &self.numbers[start..start + self.width]
    }
}
