// Whether a set of streams is a group.
ghost use Rattle.std.specs.Prelude.{◌≡◌, ◌<◌};
ghost use Rattle.crossing.specs.Below.{all_to};
ghost use Rattle.crossing.specs.Taken.{site_of};
ghost use Rattle.groups.specs.Groups.{meets, all_cross};
ghost use Rattle.groups.specs.Members.{member_of};

use crate::asking;
use crate::members::Group;
use crossing::Junction;

impl Group {
    // Whether of any two different members each crosses the other.
    pub fn all_cross(&self, junction: &Junction) -> bool
        ensures { result ≡ all_cross (site_of junction.now) (member_of self.now) }
    {
        (0..junction.streams()).all(|stream| self.meets_all(junction, stream))
    }

    // Whether a stream, if it is a member, crosses every other one.
    fn meets_all(&self, junction: &Junction, stream: usize) -> bool
        ensures { stream < junction.now.count →
            result ≡ all_to junction.now.count (meets (site_of junction.now) (member_of self.now) stream) }
    {
        (0..junction.streams()).all(|next| self.meets(junction, stream, next))
    }

    // Whether two streams, if they are two members, cross.
    fn meets(&self, junction: &Junction, stream: usize, next: usize) -> bool
        ensures { stream < junction.now.count → next < junction.now.count →
            result ≡ meets (site_of junction.now) (member_of self.now) stream next }
    {
        !(self.has(stream) && self.has_other(stream, next))
            || asking::crosses(junction, stream, next)
    }
}
