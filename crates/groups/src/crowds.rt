// A group as it grows, stream by stream, with what makes it quick to guess whether it is overfull.
ghost use Rattle.std.specs.Prelude.{◌≡◌, length};

use crate::members::Group;
use crossing::Junction;
use greens::MOST_STREAMS;

#[derive(Clone, Copy)]
pub(crate) struct Crowd<'a> {
    pub(crate) junction: &'a Junction,
    pub(crate) group: Group,
    // For each stream that crosses every other member, the least seconds to clear after it before one; the most that there can be before the first joins.
    pub(crate) gaps: [Option<u8>; MOST_STREAMS],
    ghost sized: { length gaps ≡ 12 },
}
