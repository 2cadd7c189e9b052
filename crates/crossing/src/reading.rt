// A junction read from numbers, or the first refusal that applies to them.
ghost use Rattle.std.specs.Prelude.{◌≡◌, ℕ, ◌<◌, ◌≤◌, length, slice_index, slice_index_or};
ghost use Rattle.std.specs.Result.{result_err};
ghost use Rattle.crossing.specs.Numbers.{first_above, at_fault, faulty_column, faulty_place, streams_refusal, table_refusal};
ghost use Rattle.crossing.specs.Taken.{Read, no_stream, stream_in};

use crate::junctions::{Junction, MOST_NUMBERS, Stream, Table};
use crate::refusals::Refusal;
use greens::{Cycle, MOST_SECONDS, MOST_STREAMS};
use std::array;

// The place of the first number above a bound, if there is one.
fn first_above(numbers: &[u8], most: u8) -> Option<usize>
    ensures { result ≡ first_above most numbers.now }
{
    numbers.iter().position(|&number| number > most)
}

// Whether the streams are taken, or why they aren't.
fn check_streams(streams: u64, pairs: &[u8]) -> Result<(), Refusal>
    ensures { result_err result ≡ streams_refusal streams pairs.now }
{
    if streams < 1 || streams > MOST_STREAMS as u64 {
        return Err(Refusal::Streams(streams));
    }
    if pairs.len() as u64 != 2 * streams {
        return Err(Refusal::Streams(pairs.len() as u64));
    }
    match first_above(pairs, MOST_SECONDS) {
        Some(place) => Err(Refusal::Streams(place as u64)),
        None => Ok(()),
    }
}

// Whether a number is at fault beside the one for the same two streams the other way.
fn at_fault(itself: bool, number: u8, back: u8) -> bool
    ensures { result ≡ at_fault itself number back }
{
    number > MOST_SECONDS + 1
        || (itself && number > 0)
        || (number > 0 && back == 0)
        || (number == 0 && back > 0)
}

impl<'a> Table<'a> {
    // The first column at fault in a row, if there is one.
    fn faulty_column(&self, a: usize) -> Option<usize>
        requires there { a < self.now.width }
        ensures { result ≡ faulty_column self.now.width self.now.numbers.now a }
    {
        let row = self.row(a);
        (0..self.width).find(|&b| at_fault(a == b, row[b], self.numbers[b * self.width + a]))
    }

    // The place of the first number at fault, row by row, if there is one.
    fn faulty_place(&self) -> Option<usize>
        ensures { result ≡ faulty_place self.now.width self.now.numbers.now }
    {
        (0..self.width).find_map(|a| {
            let b = self.faulty_column(a)?;
            Some(a * self.width + b)
        })
    }
}

// Whether the table is taken, or why it isn't.
fn check_table(streams: usize, numbers: &[u8]) -> Result<(), Refusal>
    ensures { result_err result ≡ table_refusal streams numbers.now }
{
    let table = Table::new(numbers, streams).ok_or(Refusal::Table(numbers.len() as u64))?;
    match table.faulty_place() {
        Some(place) => Err(Refusal::Table(place as u64)),
        None => Ok(()),
    }
}

// A number by its place, and 0 past the last.
fn number_at(numbers: &[u8], place: usize) -> u8
    ensures { result ≡ slice_index numbers.now place }
{
    numbers.get(place).copied().unwrap_or(0)
}

// The streams by value, from two numbers each.
fn streams_in(pairs: &[u8]) -> [Stream; MOST_STREAMS]
    requires { length pairs.now ≤ 24 }
    ensures len { length result ≡ 12 }
    ensures each { (k : ℕ) → k < 12 → slice_index_or result k no_stream ≡ stream_in pairs.now k }
{
    // Copied first: of an array, unlike of a slice, the compiler sees that each place is there.
    let mut numbers = [0; 2 * MOST_STREAMS];
    numbers[..pairs.len()].copy_from_slice(pairs);
    array::from_fn(|k| Stream {
        least: number_at(&numbers, 2 * k),
        comes: number_at(&numbers, 2 * k + 1),
    })
}

// The table by value.
fn table_in(table: &[u8]) -> [u8; MOST_NUMBERS]
    requires { length table.now ≤ 144 }
    ensures len { length result ≡ 144 }
    ensures each { (i : ℕ) → slice_index result i ≡ slice_index table.now i }
{
    let mut numbers = [0; MOST_NUMBERS];
    numbers[..table.len()].copy_from_slice(table);
    numbers
}

impl Junction {
    // The junction that the numbers give: a cycle, how many streams, two numbers for each, and a table of what crosses.
    pub fn read(cycle: u64, streams: u64, pairs: &[u8], table: &[u8]) -> Result<Junction, Refusal>
        ensures { Read cycle streams pairs.now table.now result }
    {
        let seconds = Cycle::new(cycle).ok_or(Refusal::Cycle(cycle))?;
        check_streams(streams, pairs)?;
        let count = streams as usize;
        check_table(count, table)?;
        Ok(Junction {
            cycle: seconds,
            count,
            streams: streams_in(pairs),
            table: table_in(table),
        })
    }
}
