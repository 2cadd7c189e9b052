// Two greens that keep apart or don't.
use crate::figures::{cycle, green};
use crossing::{apart, too_close};
use std::test::Fail;

// Whether the second green, from a second on and so long, keeps apart from the first in a cycle of 12.
fn keeps_apart(clear: u8, first: (u8, u8), next: (u8, u8)) -> Result<bool, Fail> {
    Ok(apart(cycle(12)?, clear, green(first), green(next)))
}

#[test]
fn seconds_to_clear(rt: HostRuntime) -> Result<(), Fail> {
    for (clear, first, next, apart) in [
        (2, (0, 3), (5, 2), true),
        (2, (0, 3), (4, 2), false),
        (2, (8, 3), (1, 7), true),
        (2, (8, 3), (0, 7), false),
        (2, (8, 3), (1, 8), false),
        // Not the same both ways.
        (1, (0, 3), (4, 2), true),
        (6, (4, 2), (0, 3), true),
        (7, (4, 2), (0, 3), false),
        // Round the cycle, and longer than it.
        (10, (0, 1), (11, 1), true),
        (11, (0, 1), (11, 1), false),
        (120, (0, 1), (11, 1), false),
    ] {
        assert_eq!(rt; keeps_apart(clear, first, next)?, apart);
    }
    Ok(())
}

#[test]
fn empty_and_whole(rt: HostRuntime) -> Result<(), Fail> {
    for (clear, first, next, apart) in [
        (120, (3, 0), (0, 12), true),
        (120, (0, 12), (3, 0), true),
        (0, (0, 12), (11, 1), false),
        (0, (5, 12), (4, 1), false),
        (0, (0, 11), (11, 1), true),
    ] {
        assert_eq!(rt; keeps_apart(clear, first, next)?, apart);
    }
    Ok(())
}

#[test]
fn in_which_second(rt: HostRuntime) -> Result<(), Fail> {
    let twelve = cycle(12)?;
    let first = green((10, 3));
    let next = green((0, 4));
    for (second, close) in [(11, false), (0, true), (2, true), (3, false), (4, false)] {
        assert_eq!(rt; too_close(twelve, 2, first, next, second), close);
    }
    Ok(())
}
