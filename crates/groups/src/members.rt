// A set of streams, by value: for each of the twelve that a junction can have, whether it is a member.
// The junction and what is to be spared come with each question: a set is asked for many spares, so to hold them would be no plainer.
ghost use Rattle.std.specs.Prelude.{◌≡◌, length};

use greens::MOST_STREAMS;

#[derive(Clone, Copy, Debug, PartialEq, Eq)]
pub struct Group {
    pub(crate) member: [bool; MOST_STREAMS],
    ghost sized: { length member ≡ 12 },
}
