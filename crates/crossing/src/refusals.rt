// Why numbers or a text are not taken: the list of refusals, in the order in which they are looked for.
ghost use Rattle.std.specs.Prelude.{◌≡◌};
ghost use Rattle.crossing.specs.Refusals.{number_of, place_of};

// Each holds its place, counted from 0.
#[derive(Clone, Copy, Debug, PartialEq, Eq)]
pub enum Refusal {
    // A cycle of 0 or more than 120 seconds: the cycle.
    Cycle(u64),
    // No stream or more than 12: their count. Not two numbers for each: how many there are. One above 120: its index.
    Streams(u64),
    // A table that isn't a number for each two: its length. One above 121, not 0 for a stream and itself, or two that cross one way only: the index.
    Table(u64),
    // A room that isn't two numbers for each stream: its length.
    Room(u64),
    // A text that can't be read: its line.
    Text(u64),
}

impl Refusal {
    // The number that the entry answers for it.
    pub fn number(self) -> u64
        ensures { result ≡ number_of self }
    {
        match self {
            Refusal::Cycle(_) => 1,
            Refusal::Streams(_) => 2,
            Refusal::Table(_) => 3,
            Refusal::Room(_) => 4,
            Refusal::Text(_) => 5,
        }
    }

    pub fn place(self) -> u64
        ensures { result ≡ place_of self }
    {
        match self {
            Refusal::Cycle(at)
            | Refusal::Streams(at)
            | Refusal::Table(at)
            | Refusal::Room(at)
            | Refusal::Text(at) => at,
        }
    }
}
