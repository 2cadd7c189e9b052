// Whether two greens keep apart: gone through side by side, second by second.
ghost use Rattle.std.specs.Prelude.{◌≡◌};
ghost use Rattle.crossing.specs.Good.{apart, close};

use greens::{Cycle, Green};

// Whether in a second the green `next` is too close to `first`: on while that one is, or in the seconds after it that have to be clear.
pub fn too_close(cycle: Cycle, clear: u8, first: Green, next: Green, second: u8) -> bool
    ensures { result ≡ close cycle.seconds clear first next second }
{
    let since = u16::from(cycle.after(first.from, second));
    let taken = u16::from(first.long) + u16::from(clear);
    (first.long > 0) & (next.on(cycle, second) & (since < taken))
}

// Whether the green `next` keeps apart from `first` in every second of the cycle.
pub fn apart(cycle: Cycle, clear: u8, first: Green, next: Green) -> bool
    ensures { result ≡ apart cycle.seconds clear first next }
{
    !(0..cycle.seconds()).any(|second| too_close(cycle, clear, first, next, second))
}
