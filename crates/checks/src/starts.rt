// Two greens that cross, on a cycle that has room for both and on one that hasn't.
use greens::Cycle;
use placing::{Setting, place};

// When a green of 7 seconds begins, on a cycle that it shares with one of 8 seconds that begins in second 0, with 2 seconds to clear after each.
fn start_beside(cycle: u64) -> Option<u8> {
    let mut setting = Setting::new(Cycle::new(cycle)?, 2)?;
    setting.set_long(0, 8);
    setting.set_long(1, 7);
    setting.set_window(1, 0, 119);
    setting.set_entry(0, 1, 3);
    setting.set_entry(1, 0, 3);
    let starts = place(&setting)?;
    Some(starts.start(1))
}

#[test]
fn comes_after_the_other_is_clear(rt: HostRuntime) {
    assert_eq!(rt; start_beside(19), Some(10));
}

#[test]
fn none_where_a_second_is_missing(rt: HostRuntime) {
    assert_eq!(rt; start_beside(18), None);
}
