// All plans tried, one after the other: slow, plain, and the measure of what is faster.
ghost use Rattle.std.specs.Prelude.{◌≤◌};
ghost use Rattle.greens.specs.Plans.{green_of};
ghost use Rattle.crossing.specs.Taken.{site_of};
ghost use Rattle.planning.specs.Alike.{Alike};
ghost use Rattle.planning.specs.Tries.{Spared, RightSoFar, Further, AllTried};

use crossing::Junction;
use greens::{Green, Plan};

// A good plan in which all can go.
#[derive(Clone, Copy, Debug, PartialEq, Eq)]
pub struct Found {
    pub plan: Plan,
    // What its worst-off stream has to spare.
    pub spare: u8,
}

// More than three streams: all their plans are too many to try.
#[derive(Clone, Copy, Debug, PartialEq, Eq)]
pub struct TooMany;

// What the worst-off stream has to spare, if the plan is good and all can go.
fn spared(junction: &Junction, plan: &Plan) -> Option<u8>
    ensures { Spared (site_of junction.now) (green_of plan.now.greens) result }
{
    let worth = junction.judge(plan).ok()?;
    worth.all_go.then_some(worth.spare)
}

// The better of what was found so far and of one plan more.
fn better(junction: &Junction, plan: Plan, best: Option<Found>) -> Option<Found>
    requires { RightSoFar (site_of junction.now) best }
    ensures { Further (site_of junction.now) best result (Alike junction.now.count (green_of plan.greens)) }
{
    let Some(spare) = spared(junction, &plan) else {
        return best;
    };
    best.filter(|found| found.spare >= spare)
        .or(Some(Found { plan, spare }))
}

// The better of what was found so far and of all plans with the given greens below `stream`.
fn try_from(
    junction: &Junction,
    plan: Plan,
    stream: usize,
    mut best: Option<Found>,
) -> Option<Found>
    requires stream { stream ≤ junction.now.count }
    requires right { RightSoFar (site_of junction.now) best }
    ensures { Further (site_of junction.now) best result (Alike stream (green_of plan.greens)) }
{
    if stream == junction.streams() {
        return better(junction, plan, best);
    }
    let cycle = junction.cycle().seconds();
    // Loops and no folds: a closure that comes back to this function would need a contract of its own.
    for from in 0..cycle {
        for long in 0..=cycle {
            let mut next = plan;
            next.set(stream, Green { from, long });
            best = try_from(junction, next, stream + 1, best);
        }
    }
    best
}

// A best plan by trying all there are; none where in no plan all can go. For small junctions: with three streams there are as many plans as the cycle has seconds, to the sixth power.
pub fn try_all(junction: &Junction) -> Result<Option<Found>, TooMany>
    ensures { AllTried junction.now result }
{
    if junction.streams() > 3 {
        return Err(TooMany);
    }
    Ok(try_from(junction, Plan::new(), 0, None))
}
