// What several tests begin with.
use greens::{Cycle, Green};
use std::test::Fail;

pub(crate) fn green((from, long): (u8, u8)) -> Green {
    Green { from, long }
}

pub(crate) fn cycle(seconds: u64) -> Result<Cycle, Fail> {
    Cycle::new(seconds).ok_or_else(|| Fail::new("no cycle"))
}
