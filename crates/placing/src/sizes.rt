// How many greens can be placed at most, and how many numbers there are for any two of them; specs/Sizes.antt says the same.
pub const MOST: usize = 12;

pub const PAIRS: usize = MOST * MOST;
