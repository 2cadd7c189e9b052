// What a group needs of the cycle, if every stream is to have so much to spare.
ghost use Rattle.std.specs.Prelude.{◌≡◌, ◌<◌, ◌≤◌};
ghost use Rattle.crossing.specs.Taken.{site_of};
ghost use Rattle.groups.specs.Groups.{need, asked, share};
ghost use Rattle.groups.specs.Members.{member_of};

use crate::asking;
use crate::members::Group;
use crossing::Junction;

impl Group {
    // What a stream of the junction takes: if it is a member, how long its green has to be and the least seconds to clear after it before another.
    #[tactic(auto, unfolding(crate::specs::Groups::share))]
    pub fn share(&self, junction: &Junction, spare: u8, stream: usize) -> u16
        ensures is { stream < junction.now.count →
            result ≡ share (site_of junction.now) (asked (site_of junction.now) spare) (member_of self.now) stream }
        ensures most { result ≤ 765 }
    {
        if self.has(stream) {
            asking::asked(junction, spare, stream) + u16::from(self.gap(junction, stream))
        } else {
            0
        }
    }

    // What all the members take together.
    pub fn need(&self, junction: &Junction, spare: u8) -> u16
        ensures { result ≡ need (site_of junction.now) (asked (site_of junction.now) spare) (member_of self.now) }
    {
        (0..junction.streams())
            .map(|stream| self.share(junction, spare, stream))
            .sum()
    }
}
