// Numbers refused: each refusal at both its edges, with its place, and in their order.
use crossing::{Junction, Refusal};
use planning::{Done, plan};
use std::test::Fail;

const TAKEN: Option<(u64, u64)> = None;

fn number_and_place(refusal: Refusal) -> (u64, u64) {
    (refusal.number(), refusal.place())
}

fn refused(cycle: u64, streams: u64, pairs: &[u8], table: &[u8]) -> Option<(u64, u64)> {
    let read = Junction::read(cycle, streams, pairs, table);
    read.err().map(|refusal| number_and_place(refusal))
}

// The number of the refusal, if the room was left as it was.
fn plan_refused(cycle: u64, streams: u64, pairs: &[u8], table: &[u8]) -> Option<u64> {
    let mut room = [7, 7, 7];
    match plan(cycle, streams, pairs, table, &mut room) {
        Done::Refused(number) if room == [7, 7, 7] => Some(number),
        _ => None,
    }
}

#[test]
fn cycles(rt: HostRuntime) {
    for (cycle, refusal) in [
        (0, Some((1, 0))),
        (1, TAKEN),
        (120, TAKEN),
        (121, Some((1, 121))),
    ] {
        assert_eq!(rt; refused(cycle, 1, &[0, 0], &[0]), refusal);
    }
}

#[test]
fn counts_of_streams(rt: HostRuntime) {
    let zeros: &[u8] = &[0; 169];
    for (streams, pairs, table, refusal) in [
        (0, 0, 0, Some((2, 0))),
        (1, 2, 1, TAKEN),
        (12, 24, 144, TAKEN),
        (13, 26, 169, Some((2, 13))),
        (2, 3, 4, Some((2, 3))),
        (2, 5, 4, Some((2, 5))),
        (2, 4, 3, Some((3, 3))),
        (2, 4, 5, Some((3, 5))),
    ] {
        assert!(rt; pairs <= zeros.len() && table <= zeros.len());
        assert_eq!(rt;
            refused(12, streams, &zeros[0..pairs], &zeros[0..table]),
            refusal
        );
    }
}

#[test]
fn numbers_of_streams(rt: HostRuntime) {
    for (pairs, refusal) in [
        ([120, 120, 120, 120], TAKEN),
        ([121, 0, 0, 0], Some((2, 0))),
        ([120, 121, 0, 255], Some((2, 1))),
        ([120, 120, 120, 121], Some((2, 3))),
    ] {
        assert_eq!(rt; refused(12, 2, &pairs, &[0; 4]), refusal);
    }
}

// Numbers out of bounds, for a stream and itself, and two that cross one way only: these are found at the first of their two numbers.
#[test]
fn numbers_of_tables(rt: HostRuntime) {
    for (table, refusal) in [
        ([0, 0, 0, 0, 0, 121, 0, 121, 0], TAKEN),
        ([0, 0, 0, 0, 0, 122, 0, 121, 0], Some((3, 5))),
        ([0, 0, 0, 0, 0, 121, 0, 122, 0], Some((3, 7))),
        ([1, 0, 0, 0, 0, 0, 0, 0, 0], Some((3, 0))),
        ([0, 1, 1, 1, 0, 1, 1, 1, 1], Some((3, 8))),
        ([0, 1, 9, 9, 0, 0, 1, 1, 0], Some((3, 5))),
        ([0, 1, 9, 9, 0, 1, 1, 0, 0], Some((3, 5))),
        ([0, 1, 9, 9, 0, 1, 1, 1, 0], TAKEN),
    ] {
        assert_eq!(rt; refused(12, 3, &[0; 6], &table), refusal);
    }
}

#[test]
fn rooms(rt: HostRuntime) -> Result<(), Fail> {
    let Ok(junction) = Junction::read(12, 2, &[0; 4], &[0; 4]) else {
        return Err(Fail::new("refused"));
    };
    let room: &[u8] = &[0; 5];
    for (length, refusal) in [
        (0, Some((4, 0))),
        (3, Some((4, 3))),
        (4, TAKEN),
        (5, Some((4, 5))),
    ] {
        assert!(rt; length <= room.len());
        assert_eq!(rt;
            junction
                .check_room(&room[0..length])
                .err()
                .map(|refusal| number_and_place(refusal)),
            refusal
        );
    }
    Ok(())
}

// With all wrong the cycle is refused, then the streams, then the table, then the room.
#[test]
fn the_first_that_applies(rt: HostRuntime) {
    for (cycle, streams, number, crossing, first) in [
        (0, 0, 121, 122, 1),
        (12, 0, 121, 122, 2),
        (12, 1, 121, 122, 2),
        (12, 1, 120, 122, 3),
        (12, 1, 120, 0, 4),
    ] {
        assert_eq!(rt;
            plan_refused(cycle, streams, &[number, 0], &[crossing]),
            Some(first)
        );
    }
}
