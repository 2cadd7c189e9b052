// The search held against all plans tried, on random junctions.
use crate::answers::{Answer, Trouble, by_search, by_trying};
use crate::random::{Dice, Numbers, junction};
use crossing::Junction;

const SEED: u64 = 1;

// What both answer; wrong where they differ, or the junction is refused: none of these may be.
fn agreed(numbers: &Numbers) -> Answer {
    let pairs = numbers.pairs.as_slice();
    let table = numbers.table.as_slice();
    let (cycle, streams) = (u64::from(numbers.cycle), u64::from(numbers.streams));
    let Ok(junction) = Junction::read(cycle, streams, pairs, table) else {
        return Err(Trouble::Wrong);
    };
    let search = by_search(&junction);
    if search == by_trying(&junction) {
        search
    } else {
        Err(Trouble::Wrong)
    }
}

// How many junctions there were of each kind.
#[derive(Clone, Copy, Debug, Default, PartialEq, Eq)]
struct Counts {
    none: u32,
    planned: u32,
    differ: u32,
    empty: u32,
    whole: u32,
    long: u32,
}

fn more(count: u32, one: bool) -> u32 {
    count.saturating_add(u32::from(one))
}

impl Counts {
    fn add_answer(&mut self, answer: Answer) {
        match answer {
            Ok(None) => self.none = more(self.none, true),
            Ok(Some(_)) => self.planned = more(self.planned, true),
            Err(_) => self.differ = more(self.differ, true),
        }
    }

    fn add_kind(&mut self, numbers: &Numbers) {
        self.empty = more(self.empty, numbers.has_empty());
        self.whole = more(self.whole, numbers.has_whole());
        self.long = more(self.long, numbers.has_long_clearing());
    }

    fn show(&self, rt: &HostRuntime) -> anyhow::Result<()> {
        let Counts {
            none,
            planned,
            differ,
            empty,
            whole,
            long,
        } = *self;
        println!(rt; "{none} without a plan, {planned} planned, {differ} differ")?;
        println!(rt;
            "{empty} with an empty green, {whole} with a whole cycle, {long} with long clearing"
        )?;
        Ok(())
    }
}

pub(crate) fn compare_many(rt: &HostRuntime, count: u32) -> anyhow::Result<()> {
    let mut dice = Dice::new(SEED);
    let mut counts = Counts::default();
    for _ in 0..count {
        let numbers = junction(rt.alloc(), &mut dice)?;
        let answer = agreed(&numbers);
        counts.add_answer(answer);
        counts.add_kind(&numbers);
        if answer == Err(Trouble::Wrong) {
            show(rt, &numbers)?;
        }
    }
    println!(rt; "{count} random junctions, by the search and by all plans tried")?;
    counts.show(rt)
}

fn show(rt: &HostRuntime, numbers: &Numbers) -> anyhow::Result<()> {
    let cycle = numbers.cycle;
    let pairs = &numbers.pairs;
    let table = &numbers.table;
    println!(rt; "differs: cycle {cycle}, least and comes {pairs:?}, table {table:?}")?;
    Ok(())
}
