// A plan judged: good, or the first thing that is wrong with it.
ghost use Rattle.std.specs.Prelude.{◌≡◌, ℕ, ◌<◌, length, Err, MatchOption, MatchResult};
ghost use Rattle.greens.specs.Plans.{green_of};
ghost use Rattle.crossing.specs.Good.{fits, worst, enough};
ghost use Rattle.crossing.specs.Taken.{site_of};
ghost use Rattle.crossing.specs.Verdicts.{Judged, AllFit, AllApart, Calm, FirstClose, close_to};

use crate::junctions::Junction;
use crate::keeping::too_close;
use greens::{Cycle, Green, Plan};

// What a good plan is worth.
#[derive(Clone, Copy, Debug, PartialEq, Eq)]
pub struct Worth {
    // What the stream that is worst off has to spare.
    pub spare: u8,
    // Whether all can go.
    pub all_go: bool,
}

// What is wrong with a plan that isn't good.
#[derive(Clone, Copy, Debug, PartialEq, Eq)]
pub enum Fault {
    // The first stream whose green doesn't fit: it begins past the cycle, is too short, or longer than the cycle.
    Unfit {
        stream: usize,
    },
    // All greens fit: the first second in which two that cross are too close, and the first such two, `next` too close to `first`.
    TooClose {
        second: u8,
        first: usize,
        next: usize,
    },
}

impl Junction {
    // Whether a green fits a stream: it begins in the cycle, is as long as it has to be at least, and at most the cycle.
    pub fn fits(&self, stream: usize, green: Green) -> bool
        ensures { result ≡ fits (site_of self.now) stream green }
    {
        let cycle = self.cycle().seconds();
        green.from < cycle && self.stream(stream).least <= green.long && green.long <= cycle
    }

    // What the stream that is worst off has to spare in a plan.
    pub fn worst_spare(&self, plan: &Plan) -> u8
        ensures { result ≡ worst (site_of self.now) (green_of plan.now.greens) }
    {
        (0..self.streams()).fold(self.cycle().seconds(), |least, k| {
            least.min(plan.green(k).long.saturating_sub(self.stream(k).comes))
        })
    }

    // Whether all can go: every green is at least as long as how many come.
    pub fn all_go(&self, plan: &Plan) -> bool
        ensures { result ≡ enough (site_of self.now) (green_of plan.now.greens) }
    {
        (0..self.streams()).all(|k| plan.green(k).long >= self.stream(k).comes)
    }

    // A plan judged: what it is worth if it is good, or the first thing that is wrong with it.
    pub fn judge(&self, plan: &Plan) -> Result<Worth, Fault>
        ensures { Judged (site_of self.now) (green_of plan.now.greens) result }
    {
        all_fit(self, plan)?;
        all_apart(self, plan)?;
        Ok(Worth {
            spare: self.worst_spare(plan),
            all_go: self.all_go(plan),
        })
    }
}

// Whether every green fits, or the first stream whose green doesn't.
fn all_fit(junction: &Junction, plan: &Plan) -> Result<(), Fault>
    ensures { MatchResult result (λ _. AllFit (site_of junction.now) (green_of plan.now.greens)) (λ fault. Judged (site_of junction.now) (green_of plan.now.greens) (Err fault)) }
{
    let unfit = (0..junction.streams()).find(|&k| !junction.fits(k, plan.green(k)));
    match unfit {
        Some(stream) => Err(Fault::Unfit { stream }),
        None => Ok(()),
    }
}

// Whether no two are too close in any second, or the first second in which two are, and the first such two.
fn all_apart(junction: &Junction, plan: &Plan) -> Result<(), Fault>
    ensures { MatchResult result (λ _. AllApart (site_of junction.now) (green_of plan.now.greens)) (λ fault. AllFit (site_of junction.now) (green_of plan.now.greens) → Judged (site_of junction.now) (green_of plan.now.greens) (Err fault)) }
{
    let close = (0..junction.cycle().seconds()).find_map(|second| {
        let (first, next) = first_close(junction, plan, second)?;
        Some((second, first, next))
    });
    match close {
        Some((second, first, next)) => Err(Fault::TooClose {
            second,
            first,
            next,
        }),
        None => Ok(()),
    }
}

// In a second: the first two streams that are too close, if any are.
fn first_close(junction: &Junction, plan: &Plan, second: u8) -> Option<(usize, usize)>
    ensures { MatchOption result (Calm (site_of junction.now) (green_of plan.now.greens) second) (λ two. FirstClose (site_of junction.now) (green_of plan.now.greens) second two.0 two.1) }
{
    (0..junction.streams()).find_map(|first| {
        let next = close_to(junction.cycle(), junction.row(first), plan, first, second)?;
        Some((first, next))
    })
}

// In a second, by stream `a`'s row of the table: the first stream that is too close to `a`, if one is.
fn close_to(cycle: Cycle, row: &[u8], plan: &Plan, a: usize, second: u8) -> Option<usize>
    ensures { result ≡ close_to cycle.seconds row.now (green_of plan.now.greens) a second }
{
    row.iter().enumerate().position(|(b, &number)| {
        number > 0 && a != b && too_close(cycle, number - 1, plan.green(a), plan.green(b), second)
    })
}
