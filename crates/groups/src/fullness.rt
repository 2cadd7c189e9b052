// Whether a group is overfull, if every stream is to have so much to spare.
ghost use Rattle.std.specs.Prelude.{◌≡◌};
ghost use Rattle.crossing.specs.Below.{all_to};
ghost use Rattle.crossing.specs.Taken.{site_of};
ghost use Rattle.groups.specs.Groups.{wants, overfull};
ghost use Rattle.groups.specs.Members.{member_of};

use crate::asking;
use crate::members::Group;
use crossing::Junction;

impl Group {
    // It is a group, all its members have to have a green, and together they need more than the cycle.
    #[tactic(auto, unfolding(crate::specs::Groups::overfull))]
    pub fn is_overfull(&self, junction: &Junction, spare: u8) -> bool
        ensures { result ≡ overfull (site_of junction.now) spare (member_of self.now) }
    {
        let cycle = u16::from(junction.cycle().seconds());
        self.all_cross(junction)
            && self.all_want(junction, spare)
            && self.need(junction, spare) > cycle
    }

    // Whether all the members have to have a green.
    fn all_want(&self, junction: &Junction, spare: u8) -> bool
        ensures { result ≡ all_to junction.now.count (wants (site_of junction.now) spare (member_of self.now)) }
    {
        (0..junction.streams()).all(|stream| self.wants(junction, spare, stream))
    }

    // Whether a stream, if it is a member, has to have a green.
    fn wants(&self, junction: &Junction, spare: u8, stream: usize) -> bool
        ensures { result ≡ wants (site_of junction.now) spare (member_of self.now) stream }
    {
        !self.has(stream) || asking::asked(junction, spare, stream) > 0
    }
}
