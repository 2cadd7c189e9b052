// The search timed.
use crossing::Junction;
use greens::Plan;
use planning::best;
use std::time::Instant;

// What was found for a junction, and in how many nanoseconds.
#[derive(Clone, Copy, Debug, PartialEq, Eq)]
pub struct Timed {
    pub spare: Option<u8>,
    // A figure by which plans that differ are told apart.
    pub mark: u64,
    pub nanos: u64,
}

fn mark(plan: &Plan) -> u64 {
    (0..12)
        .map(|stream| plan.green(stream))
        .fold(0, |mark: u64, green| {
            mark.wrapping_mul(121)
                .wrapping_add(u64::from(green.from))
                .wrapping_mul(121)
                .wrapping_add(u64::from(green.long))
        })
}

fn time_once(rt: &HostRuntime, junction: &Junction) -> anyhow::Result<Timed> {
    let start = Instant::now(rt)?;
    let found = best(junction);
    let took = start.elapsed(rt)?.as_nanos();
    let nanos = took.min(1_000_000_000_000) as u64;
    Ok(Timed {
        spare: found.map(|found| found.spare),
        mark: found.map_or(0, |found| mark(&found.plan)),
        nanos,
    })
}

// The shortest of so many rounds; at least one is run.
pub(crate) fn time(rt: &HostRuntime, junction: &Junction, rounds: u32) -> anyhow::Result<Timed> {
    let mut least = time_once(rt, junction)?;
    for _ in 1..rounds {
        let again = time_once(rt, junction)?;
        if again.nanos < least.nanos {
            least = again;
        }
    }
    Ok(least)
}
