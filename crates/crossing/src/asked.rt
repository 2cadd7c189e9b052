// What a junction asks for: its cycle, its streams, and what has to be clear between two of them.
ghost use Rattle.std.specs.Prelude.{◌≡◌, ◌<◌, length, Some, None};
ghost use Rattle.std.specs.Result.{result_err};
ghost use Rattle.crossing.specs.Numbers.{room_refusal};
ghost use Rattle.crossing.specs.Taken.{stream_of, clearing_of, row_in, seconds_in};

use crate::junctions::{Junction, Stream, Table};
use crate::refusals::Refusal;
use greens::Cycle;

impl Junction {
    pub fn cycle(&self) -> Cycle
        ensures { result ≡ self.now.cycle }
    {
        self.cycle
    }

    // How many streams there are: 1 to 12.
    pub fn streams(&self) -> usize
        ensures { result ≡ self.now.count }
    {
        self.count
    }

    // A stream; past the last one that nobody uses. One line of its own, as wherever a list is read by number: a shared one would be longer.
    pub fn stream(&self, stream: usize) -> Stream
        ensures { result ≡ stream_of self.now stream }
    {
        self.streams
            .get(stream)
            .copied()
            .unwrap_or(Stream { least: 0, comes: 0 })
    }

    // The row of the table with what has to be clear after a stream; empty past the last.
    pub fn row(&self, stream: usize) -> &[u8]
        ensures { result.now ≡ row_in self.now stream }
    {
        if stream < self.count {
            let table = Table {
                numbers: &self.table,
                width: self.count,
            };
            table.row(stream)
        } else {
            &[]
        }
    }

    // How many seconds have to be clear after the end of `first` before `next` may begin; none where they don't cross.
    pub fn clearing(&self, first: usize, next: usize) -> Option<u8>
        ensures { result ≡ clearing_of self.now first next }
    {
        self.row(first)
            .get(next)
            .and_then(|&number| seconds_in(number))
    }

    // Whether a room is taken for a plan of this junction, or why it isn't.
    pub fn check_room(&self, room: &[u8]) -> Result<(), Refusal>
        ensures { result_err result ≡ room_refusal self.now.count room.now }
    {
        if room.len() == 2 * self.count {
            Ok(())
        } else {
            Err(Refusal::Room(room.len() as u64))
        }
    }
}

// A number of the table as seconds to clear.
fn seconds_in(number: u8) -> Option<u8>
    ensures { result ≡ seconds_in number }
{
    number.checked_sub(1)
}
