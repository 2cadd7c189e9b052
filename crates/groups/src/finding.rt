// Finding a group that is overfull: why a junction can't go.
ghost use Rattle.crossing.specs.Taken.{site_of};
ghost use Rattle.groups.specs.Whys.{Why};

use crate::crowds::Crowd;
use crate::members::Group;
use crate::walking::{Quest, walk};
use crossing::Junction;

// A group that is overfull, if every stream is to have so much to spare. Where none is found, there may still be no plan.
pub fn overfull(junction: &Junction, spare: u8) -> Option<Group>
    ensures { Why (site_of junction.now) spare result }
{
    walk(OverfullGroup { spare }, &Crowd::new(junction), 0, None)
}

// The first group that is overfull.
#[derive(Clone, Copy)]
struct OverfullGroup {
    spare: u8,
}

impl Quest for OverfullGroup {
    type Found = Option<Group>;

    ghost says = { λ site it. Why site it.spare };

    fn sought(self, found: Option<Group>) -> Option<u8> {
        found.is_none().then_some(self.spare)
    }

    fn look(self, crowd: &Crowd, found: Option<Group>) -> Option<Group> {
        if crowd.group.is_overfull(crowd.junction, self.spare) {
            Some(crowd.group)
        } else {
            found
        }
    }
}
