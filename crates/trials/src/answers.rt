// What is answered for a junction, held against its plan.
use crossing::{Junction, Worth};
use greens::{Green, Plan};
use planning::{Done, Found, TooMany, best, plan, try_all};
use std::fmt;

// Why there is no answer that could be compared.
#[derive(Clone, Copy, Debug, PartialEq, Eq)]
pub enum Trouble {
    // A plan that is not what was said of it.
    Wrong,
    TooMany,
    Refused(u64),
}

impl fmt::Display for Trouble {
    fn fmt<W: fmt::Write>(&self, f: &mut fmt::Formatter<W>) -> fmt::Result {
        match *self {
            Trouble::Wrong => write!(f, "wrong"),
            Trouble::TooMany => write!(f, "too many"),
            Trouble::Refused(number) => write!(f, "refused by {number}"),
        }
    }
}

// What the worst-off stream has to spare in a plan that was judged good and in which all can go; none where there is no such plan.
pub type Answer = Result<Option<u8>, Trouble>;

// An answer as it is printed.
#[derive(Clone, Copy, Debug, PartialEq, Eq)]
pub struct Shown(pub Answer);

impl fmt::Display for Shown {
    fn fmt<W: fmt::Write>(&self, f: &mut fmt::Formatter<W>) -> fmt::Result {
        match self.0 {
            Ok(Some(spare)) => write!(f, "{spare} to spare"),
            Ok(None) => write!(f, "none"),
            Err(trouble) => write!(f, "{trouble}"),
        }
    }
}

// What is to spare in a plan, if that is what was said of it.
fn judged(junction: &Junction, plan: &Plan, said: u64) -> Answer {
    match junction.judge(plan) {
        Ok(
            Worth {
                spare,
                all_go: true,
            },
        ) if u64::from(spare) == said => Ok(Some(spare)),
        _ => Err(Trouble::Wrong),
    }
}

fn judged_if_found(junction: &Junction, found: Option<Found>) -> Answer {
    let Some(found) = found else {
        return Ok(None);
    };
    judged(junction, &found.plan, u64::from(found.spare))
}

pub(crate) fn by_search(junction: &Junction) -> Answer {
    judged_if_found(junction, best(junction))
}

pub(crate) fn by_trying(junction: &Junction) -> Answer {
    match try_all(junction) {
        Ok(found) => judged_if_found(junction, found),
        Err(TooMany) => Err(Trouble::TooMany),
    }
}

// The plan that a room holds.
fn plan_in(room: &[u8]) -> Plan {
    let mut plan = Plan::new();
    for (stream, numbers) in room.chunks_exact(2).enumerate() {
        if let [from, long] = *numbers {
            plan.set(stream, Green { from, long });
        }
    }
    plan
}

// By the entry over lent numbers, which leaves its plan in the room.
pub(crate) fn by_entry(
    junction: &Junction,
    cycle: u64,
    pairs: &[u8],
    table: &[u8],
    room: &mut [u8],
) -> Answer {
    match plan(cycle, junction.streams() as u64, pairs, table, room) {
        Done::Planned(spare) => judged(junction, &plan_in(room), spare),
        Done::None => Ok(None),
        Done::Refused(number) => Err(Trouble::Refused(number)),
    }
}
