// Random small junctions, the same in every run.
ghost use Rattle.std.specs.Prelude.{◌≤◌};

use std::alloc::{AllocError, Global};

// A linear congruential generator.
#[derive(Clone, Copy, Debug, PartialEq, Eq)]
pub struct Dice {
    state: u64,
}

impl Dice {
    pub(crate) fn new(seed: u64) -> Dice {
        Dice { state: seed }
    }

    // A number from 0 to `most`, from the upper bits, which go round later than the lower ones.
    pub(crate) fn roll(&mut self, most: u8) -> u8
        ensures { result ≤ most }
    {
        self.state = self
            .state
            .wrapping_mul(6364136223846793005)
            .wrapping_add(1442695040888963407);
        ((self.state >> 33) % (u64::from(most) + 1)) as u8
    }
}

// A junction in numbers.
#[derive(Debug, PartialEq, Eq, Drop)]
pub struct Numbers {
    pub cycle: u8,
    pub streams: u8,
    pub pairs: Vec<u8>,
    pub table: Vec<u8>,
}

impl Numbers {
    // Whether a stream asks for no green.
    pub(crate) fn has_empty(&self) -> bool {
        let mut streams = self.pairs.as_slice().chunks_exact(2);
        streams.any(|numbers| numbers == [0, 0].as_slice())
    }

    // Whether a stream asks for the whole cycle.
    pub(crate) fn has_whole(&self) -> bool {
        self.pairs.as_slice().contains(&self.cycle)
    }

    // Whether what has to be clear between two reaches round the cycle.
    pub(crate) fn has_long_clearing(&self) -> bool {
        self.table.iter().any(|&number| number > self.cycle)
    }
}

// 1 to 3 streams in a cycle of 1 to 8 seconds, mostly crossing, with numbers from 0 to a little past the cycle.
pub(crate) fn junction(heap: Global, dice: &mut Dice) -> Result<Numbers, AllocError> {
    let cycle = dice.roll(7) + 1;
    let streams = dice.roll(2) + 1;
    // Few of the numbers are large: else hardly a junction would have a plan.
    let most = dice.roll(cycle + 1);
    let mut pairs = Vec::new(heap);
    for _ in 0..streams {
        pairs.push(dice.roll(most))?;
        pairs.push(dice.roll(most))?;
    }
    let table = crossings(heap, dice, streams, cycle)?;
    Ok(Numbers {
        cycle,
        streams,
        pairs,
        table,
    })
}

// The table, row by row.
fn crossings(heap: Global, dice: &mut Dice, streams: u8, cycle: u8) -> Result<Vec<u8>, AllocError>
    requires few { streams ≤ 3 }
    requires short { cycle ≤ 8 }
{
    // Any two of three streams have a sum of their own: 1, 2 or 3.
    let crosses = [false, dice.roll(3) > 0, dice.roll(3) > 0, dice.roll(3) > 0];
    let most = dice.roll(cycle + 2);
    let mut table = Vec::new(heap);
    for a in 0..streams {
        for b in 0..streams {
            let crossing = a != b && crosses[usize::from(a + b)];
            table.push(if crossing { dice.roll(most) + 1 } else { 0 })?;
        }
    }
    Ok(table)
}
