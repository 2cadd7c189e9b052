// How far a search has come: from when to when each green may still begin, and which it has put before which.
ghost use Rattle.std.specs.Prelude.{◌≡◌, All, length};
ghost use Rattle.placing.specs.Sizes.{most_greens};

use crate::sizes::MOST;

// Two lists and no list of pairs: a setting gives the first seconds whole, and those that are left are the answer.
#[derive(Clone, Copy, Debug, PartialEq, Eq)]
pub struct Bounds {
    pub(crate) low: [u8; MOST],
    pub(crate) high: [u8; MOST],
    // A row for each green: it has been put before the column's.
    pub(crate) before: [[bool; MOST]; MOST],
    ghost framed: { (length low ≡ most_greens) × (length high ≡ most_greens) },
    ghost sized: { length before ≡ most_greens },
    ghost square: { All (λ row. length row ≡ most_greens) before },
}
