// Seconds that go round, and the seconds in which a green is on.
use crate::figures::cycle;
use greens::{Cycle, Green, Plan};
use std::test::Fail;

// Whether a green is on in just these seconds.
fn on_in(cycle: Cycle, from: u8, long: u8, seconds: &[u8]) -> bool {
    let green = Green { from, long };
    (0..cycle.seconds()).all(|second| green.on(cycle, second) == seconds.contains(&second))
        && usize::from(green.seconds(cycle)) == seconds.len()
}

#[test]
fn seconds_go_round(rt: HostRuntime) -> Result<(), Fail> {
    let twelve = cycle(12)?;
    for (second, by, later) in [(0, 11, 11), (11, 1, 0), (11, 12, 11), (7, 120, 7)] {
        assert_eq!(rt; twelve.later(second, by), later);
    }
    for (from, second, after) in [
        (10, 10, 0),
        (10, 11, 1),
        (10, 1, 3),
        (10, 9, 11),
        (0, 11, 11),
    ] {
        assert_eq!(rt; twelve.after(from, second), after);
    }
    Ok(())
}

#[test]
fn greens_over_the_end(rt: HostRuntime) -> Result<(), Fail> {
    let twelve = cycle(12)?;
    for (from, seconds) in [
        (10, [10, 11, 0, 1]),
        (0, [0, 1, 2, 3]),
        (8, [8, 9, 10, 11]),
        (9, [9, 10, 11, 0]),
    ] {
        assert!(rt; on_in(twelve, from, 4, &seconds));
    }
    Ok(())
}

#[test]
fn empty_and_whole_greens(rt: HostRuntime) -> Result<(), Fail> {
    assert!(rt; on_in(cycle(4)?, 3, 0, &[]));
    assert!(rt; on_in(cycle(4)?, 3, 4, &[0, 1, 2, 3]));
    assert!(rt; on_in(cycle(1)?, 0, 0, &[]));
    assert!(rt; on_in(cycle(1)?, 0, 1, &[0]));
    Ok(())
}

#[test]
fn plans_hold_twelve(rt: HostRuntime) -> Result<(), Fail> {
    let mut plan = Plan::new();
    plan.set(11, Green { from: 10, long: 4 });
    plan.set(12, Green { from: 1, long: 1 });
    assert_eq!(rt; plan.green(0).long, 0);
    assert_eq!(rt; plan.green(12).long, 0);
    let later = plan.later(cycle(12)?, 3).green(11);
    assert_eq!(rt; (later.from, later.long), (1, 4));
    Ok(())
}
