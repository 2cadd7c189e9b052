// The least seconds to clear after a stream before another of its group.
ghost use Rattle.std.specs.Prelude.{◌≡◌, ◌<◌};
ghost use Rattle.crossing.specs.Taken.{site_of};
ghost use Rattle.groups.specs.Groups.{gap};
ghost use Rattle.groups.specs.Members.{member_of};

use crate::asking;
use crate::members::Group;
use crossing::Junction;

impl Group {
    // 0 if there is no other.
    pub(crate) fn gap(&self, junction: &Junction, stream: usize) -> u8
        ensures { stream < junction.now.count → result ≡ gap (site_of junction.now) (member_of self.now) stream }
    {
        (0..junction.streams())
            .filter(|&next| self.has_other(stream, next))
            .map(|next| asking::clear(junction, stream, next))
            .min()
            .unwrap_or(0)
    }
}
