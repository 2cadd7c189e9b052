// How much can be spared at most, by all the groups of a junction.
ghost use Rattle.std.specs.Prelude.{◌<◌};
ghost use Rattle.crossing.specs.Taken.{site_of};
ghost use Rattle.groups.specs.Spares.{AtMost};

use crate::crowds::Crowd;
use crate::walking::{Quest, walk};
use crossing::Junction;

// At most so much can every stream have to spare in a good plan in which all can go, or there is no such plan.
pub fn most_spare(junction: &Junction) -> Option<u8>
    ensures { AtMost (site_of junction.now) result }
{
    walk(LeastBound, &Crowd::new(junction), 0, least_left(junction))
}

// What the cycle leaves to the stream that it leaves least; none, which is less than any number, where it is too short for one.
fn least_left(junction: &Junction) -> Option<u8>
    ensures { AtMost (site_of junction.now) result }
{
    let cycle = junction.cycle().seconds();
    (0..junction.streams()).fold(
        Some(cycle),
        |most, stream| most.min(left_to(junction, stream)),
    )
}

// What the cycle leaves to a stream; none where it is too short for it.
fn left_to(junction: &Junction, stream: usize) -> Option<u8>
    ensures { stream < junction.now.count → AtMost (site_of junction.now) result }
{
    let cycle = junction.cycle().seconds();
    let ends = junction.stream(stream);
    if ends.least > cycle {
        None
    } else {
        cycle.checked_sub(ends.comes)
    }
}

// The least bound, lowered by one group after another.
#[derive(Clone, Copy)]
struct LeastBound;

impl Quest for LeastBound {
    type Found = Option<u8>;

    ghost says = { λ site _. AtMost site };

    fn sought(self, most: Option<u8>) -> Option<u8> {
        most
    }

    fn look(self, crowd: &Crowd, most: Option<u8>) -> Option<u8> {
        match most.and_then(|most| crowd.seems_too_much(most)) {
            Some(spare) if crowd.group.is_overfull(crowd.junction, spare) => spare.checked_sub(1),
            _ => most,
        }
    }
}
