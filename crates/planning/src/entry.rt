// The entry over lent numbers: a junction in, a best plan into the room.
ghost use Rattle.std.specs.Prelude.{◌≡◌, ℕ, ◌+◌, ◌*◌, ◌<◌, length};
ghost use Rattle.greens.specs.Plans.{green_of};
ghost use Rattle.crossing.specs.Numbers.{site_in};
ghost use Rattle.planning.specs.Entry.{Gives, Says, entry_refusal, plan_in};

use crate::finding::best;
use crossing::{Junction, Refusal};
use greens::Plan;

// Callers of the entry get numbers alone, so this is no Result, and a refusal is its number.
#[derive(Clone, Copy, Debug, PartialEq, Eq)]
pub enum Done {
    // What the worst-off stream has to spare in the plan that was left in the room.
    Planned(u64),
    // In no plan can all go.
    None,
    // The number of the first refusal that applies.
    Refused(u64),
}

// Writes a plan: for each stream the second from which, and for how long.
fn write_plan(plan: &Plan, room: &mut [u8])
    ensures { (k : ℕ) → 2 * k + 1 < length room.old → plan_in room.new k ≡ green_of plan.now.greens k }
{
    for (place, number) in room.iter_mut().enumerate() {
        let green = plan.green(place / 2);
        *number = if place % 2 == 0 {
            green.from
        } else {
            green.long
        };
    }
}

// A best plan for the junction that the numbers give, left in the room: what its worst-off stream has to spare, none where in no plan all can go, or the first refusal that applies.
fn planned(
    cycle: u64,
    streams: u64,
    pairs: &[u8],
    table: &[u8],
    room: &mut [u8],
) -> Result<Option<u8>, Refusal>
    ensures { Gives (entry_refusal cycle streams pairs.now table.now room.old) (site_in cycle streams pairs.now table.now) room.old result room.new }
{
    let junction = Junction::read(cycle, streams, pairs, table)?;
    junction.check_room(room)?;
    let Some(found) = best(&junction) else {
        return Ok(None);
    };
    write_plan(&found.plan, room);
    Ok(Some(found.spare))
}

// A best plan for the junction that the numbers give, left in the room, or that there is none, or why they are not taken: the same in numbers alone.
pub fn plan(cycle: u64, streams: u64, pairs: &[u8], table: &[u8], room: &mut [u8]) -> Done
    ensures { Says (entry_refusal cycle streams pairs.now table.now room.old) (site_in cycle streams pairs.now table.now) room.old result room.new }
{
    match planned(cycle, streams, pairs, table, room) {
        Ok(Some(spare)) => Done::Planned(u64::from(spare)),
        Ok(None) => Done::None,
        Err(refusal) => Done::Refused(refusal.number()),
    }
}
