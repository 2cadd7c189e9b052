// Plans judged: in a cycle of 12, two streams that need 2 and 3, 2 and 2 (at least so long, so many come).
use crate::figures::green;
use crossing::{Fault, Junction, Worth};
use greens::Plan;
use std::test::Fail;

// What is said of a plan with these two greens, where so much has to be clear after the one and after the other.
fn judged(table: [u8; 4], first: (u8, u8), second: (u8, u8)) -> Result<Result<Worth, Fault>, Fail> {
    let Ok(junction) = Junction::read(12, 2, &[2, 3, 2, 2], &table) else {
        return Err(Fail::new("refused"));
    };
    let mut plan = Plan::new();
    plan.set(0, green(first));
    plan.set(1, green(second));
    Ok(junction.judge(&plan))
}

const CROSS: [u8; 4] = [0, 3, 3, 0];

const APART: [u8; 4] = [0, 0, 0, 0];

#[test]
fn good_plans(rt: HostRuntime) -> Result<(), Fail> {
    for (table, first, second, (spare, all_go)) in [
        (CROSS, (0, 4), (6, 4), (1, true)),
        (CROSS, (10, 4), (4, 4), (1, true)),
        (CROSS, (0, 3), (6, 2), (0, true)),
        (CROSS, (0, 2), (6, 2), (0, false)),
        (APART, (0, 12), (11, 12), (9, true)),
        // Two seconds to clear one way, and none the other.
        ([0, 3, 1, 0], (0, 4), (6, 6), (1, true)),
        ([0, 1, 3, 0], (0, 4), (4, 6), (1, true)),
    ] {
        assert_eq!(rt; judged(table, first, second)?, Ok(Worth { spare, all_go }));
    }
    Ok(())
}

#[test]
fn greens_that_do_not_fit(rt: HostRuntime) -> Result<(), Fail> {
    for (first, second, stream) in [
        ((12, 4), (6, 4), 0),
        ((0, 1), (12, 0), 0),
        ((0, 13), (6, 4), 0),
        ((0, 4), (4, 1), 1),
        ((0, 4), (12, 4), 1),
    ] {
        assert_eq!(rt; judged(CROSS, first, second)?, Err(Fault::Unfit { stream }));
    }
    Ok(())
}

#[test]
fn greens_too_close(rt: HostRuntime) -> Result<(), Fail> {
    for (table, one, other, (second, first, next)) in [
        (CROSS, (0, 4), (5, 4), (5, 0, 1)),
        (CROSS, (0, 4), (7, 4), (0, 1, 0)),
        (CROSS, (3, 4), (3, 4), (3, 0, 1)),
        (CROSS, (0, 12), (11, 2), (0, 0, 1)),
        ([0, 1, 3, 0], (0, 4), (6, 6), (0, 1, 0)),
        // More seconds to clear than the cycle has.
        ([0, 121, 1, 0], (0, 4), (6, 4), (6, 0, 1)),
    ] {
        let close = Fault::TooClose {
            second,
            first,
            next,
        };
        assert_eq!(rt; judged(table, one, other)?, Err(close));
    }
    Ok(())
}
