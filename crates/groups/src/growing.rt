// How a group grows, and guesses at whether it is overfull. Nothing rests on a guess: who follows one looks at the group itself.
ghost use Rattle.std.specs.Prelude.{◌≡◌};

use crate::asking;
use crate::crowds::Crowd;
use crate::members::Group;
use crossing::Junction;
use std::array;

impl<'a> Crowd<'a> {
    // Nobody yet, and every stream of the junction may come in.
    pub(crate) fn new(junction: &'a Junction) -> Crowd<'a>
        ensures { result.junction.now ≡ junction.now }
    {
        Crowd {
            junction,
            group: Group::new(),
            gaps: array::from_fn(|stream| most_clearing(junction, stream)),
        }
    }

    // Whether a stream that is no member crosses every member.
    pub(crate) fn takes(&self, stream: usize) -> bool {
        matches!(self.gaps.get(stream), Some(Some(_)))
    }

    // The group with one more member.
    pub(crate) fn with(&self, stream: usize) -> Crowd<'a>
        ensures { result.junction.now ≡ self.now.junction.now }
    {
        let mut group = self.group;
        group.join(stream);
        let mut gaps = self.gaps;
        for (other, gap) in gaps.iter_mut().enumerate() {
            if other != stream {
                *gap = gap
                    .zip(self.junction.clearing(other, stream))
                    .map(|(least, seconds)| least.min(seconds));
            }
        }
        Crowd {
            junction: self.junction,
            group,
            gaps,
        }
    }

    // Whether the group seems overfull with all that may come in from the stream `next` on, if every stream is to have so much to spare.
    // No group between the two needs more: as a group grows, what has to be clear gets less.
    pub(crate) fn seems_full(&self, next: usize, spare: u8) -> bool {
        let cycle = u16::from(self.junction.cycle().seconds());
        let mut sum = 0;
        for (stream, gap) in self.gaps.iter().enumerate() {
            let member = self.group.has(stream);
            if let Some(gap) = gap
                && (member || stream >= next)
            {
                match asking::asked(self.junction, spare, stream) {
                    0 if member => return false,
                    0 => {}
                    long => sum += (long + u16::from(*gap)).min(cycle),
                }
            }
        }
        sum > cycle
    }

    // The least that seems too much to spare for the group, from `most` down; none where `most` doesn't.
    pub(crate) fn seems_too_much(&self, most: u8) -> Option<u8> {
        (0..=most)
            .rev()
            .take_while(|&spare| self.seems_full(self.gaps.len(), spare))
            .last()
    }
}

// The most seconds to clear after a stream; none past the last one.
fn most_clearing(junction: &Junction, stream: usize) -> Option<u8> {
    let row = junction.row(stream);
    row.iter().map(|number| number.saturating_sub(1)).max()
}
