// A walk over the groups of a junction.
ghost use Rattle.crossing.specs.Site.{Site};
ghost use Rattle.crossing.specs.Taken.{site_of};

use crate::crowds::Crowd;

// What a walk is for.
pub(crate) trait Quest: Copy {
    // What is found.
    type Found: Copy;

    // What that says of the junction.
    ghost says: { Site → Self → Self.Found → Type 0 };

    // How much to spare a group has to be overfull for, to change what is found; none where no group can.
    fn sought(self, found: Self::Found) -> Option<u8>;

    // What is found with one more group.
    fn look(self, crowd: &Crowd, found: Self::Found) -> Self::Found
        requires { says (site_of crowd.now.junction.now) self found }
        ensures { says (site_of crowd.now.junction.now) self result };
}

// Looks at each group that has the members of the crowd and others from the stream `next` on: with that stream first, then without it.
pub(crate) fn walk<Q: Quest>(quest: Q, crowd: &Crowd, next: usize, found: Q::Found) -> Q::Found
    requires { Q.says (site_of crowd.now.junction.now) quest found }
    ensures { Q.says (site_of crowd.now.junction.now) quest result }
{
    // Past the last stream nothing is guessed: where many cross a third of all guesses would be made there.
    let worth = next < crowd.junction.streams()
        && quest
            .sought(found)
            .is_some_and(|spare| crowd.seems_full(next, spare));
    if !worth {
        return found;
    }
    let found = if crowd.takes(next) {
        let with = crowd.with(next);
        walk(quest, &with, next + 1, quest.look(&with, found))
    } else {
        found
    };
    walk(quest, crowd, next + 1, found)
}
