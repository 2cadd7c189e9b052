// A best plan by search: for so much to spare the lengths are settled and only the starts are looked for, and how much that can be is found by halving.
ghost use Rattle.std.specs.Prelude.{◌≡◌, ℕ, ◌+◌, ◌<◌, ◌≤◌, Some};
ghost use Rattle.greens.specs.Plans.{green_of};
ghost use Rattle.crossing.specs.Taken.{site_of};
ghost use Rattle.groups.specs.Groups.{asked};
ghost use Rattle.placing.specs.Searches.{start_of};
ghost use Rattle.planning.specs.Alike.{Alike};
ghost use Rattle.planning.specs.Lengths.{Leaves, Leaving, Beyond, BestFound, plan_for};

use crate::laying::Ground;
use crate::tries::Found;
use crossing::Junction;
use greens::{Green, Plan};
use groups::{asked, most_spare};
use placing::{Starts, place};

// The plan with these starts, its greens as long as they have to be for so much to spare.
fn plan_from(junction: &Junction, starts: &Starts, spare: u8) -> Plan
    requires { (k : ℕ) → k < junction.now.count → asked (site_of junction.now) spare k ≤ junction.now.cycle.seconds }
    ensures { Alike junction.now.count (plan_for (site_of junction.now) spare (start_of starts.now)) (green_of result.greens) }
{
    let mut plan = Plan::new();
    // A loop: a fold would only hand the same plan through its closure.
    for stream in 0..junction.streams() {
        let from = starts.start(stream);
        let long = asked(junction, spare, stream) as u8;
        plan.set(stream, Green { from, long });
    }
    plan
}

impl Ground<'_> {
    // A plan that leaves every stream so much to spare; none where no plan does.
    fn leaving(&self, spare: u8) -> Option<Plan>
        ensures { Leaving (site_of self.now.junction.now) spare result }
    {
        let setting = self.lengthened(spare)?;
        let starts = place(&setting)?;
        Some(plan_from(self.junction, &starts, spare))
    }

    // A best plan from one that leaves so much to spare, where none leaves more than `most`.
    fn widen(&self, mut found: Found, mut most: u8) -> Found
        requires found { Leaves (site_of self.now.junction.now) found.spare (green_of found.plan.greens) }
        requires most { Beyond (site_of self.now.junction.now) (most + 1) }
        ensures { BestFound (site_of self.now.junction.now) (Some result) }
    {
        while found.spare < most {
            let spare = most - (most - found.spare) / 2;
            match self.leaving(spare) {
                Some(plan) => found = Found { plan, spare },
                None => most = spare - 1,
            }
        }
        found
    }
}

// A best plan and what its worst-off stream has to spare; none where in no plan all can go.
pub fn best(junction: &Junction) -> Option<Found>
    ensures { BestFound (site_of junction.now) result }
{
    let most = most_spare(junction)?;
    let ground = Ground::new(junction);
    let plan = ground.leaving(0)?;
    Some(ground.widen(Found { plan, spare: 0 }, most))
}
