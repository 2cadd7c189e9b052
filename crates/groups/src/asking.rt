// What a junction asks of a stream and of two. Callers go over the junction's own streams: of one past the last nothing is promised, and a pair with its bounds for each question would be no plainer.
ghost use Rattle.std.specs.Prelude.{◌≡◌, ◌+◌, ◌<◌, ◌≤◌};
ghost use Rattle.crossing.specs.Taken.{site_of};
ghost use Rattle.groups.specs.Groups.{asked};

use crossing::Junction;

// How long a stream's green has to be at least, if the stream is to have so much to spare.
pub fn asked(junction: &Junction, spare: u8, stream: usize) -> u16
    ensures is { result ≡ asked (site_of junction.now) spare stream }
    ensures most { result ≤ 510 }
{
    let ends = junction.stream(stream);
    let wanted = u16::from(ends.comes) + u16::from(spare);
    wanted.max(u16::from(ends.least))
}

// Whether two streams of the junction cross.
pub(crate) fn crosses(junction: &Junction, first: usize, next: usize) -> bool
    ensures { first < junction.now.count → next < junction.now.count → result ≡ (site_of junction.now).crosses first next }
{
    junction.clearing(first, next).is_some()
}

// How many seconds have to be clear after a stream of the junction before another; 0 where they don't cross.
pub(crate) fn clear(junction: &Junction, first: usize, next: usize) -> u8
    ensures { first < junction.now.count → next < junction.now.count → result ≡ (site_of junction.now).clear first next }
{
    junction.clearing(first, next).unwrap_or(0)
}
