// A family of junctions run and summed up.
use crate::reading::read;
use crate::rounds::time;
use std::alloc::AllocError;

// What a family's junctions are answered, as a checksum.
#[derive(Clone, Copy, Debug, Default, PartialEq, Eq)]
struct Sums {
    right: u32,
    none: u32,
    spare: u32,
}

impl Sums {
    fn add(&mut self, spare: Option<u8>, known: Option<u8>) {
        if spare == known {
            self.right = self.right.saturating_add(1);
        }
        match spare {
            Some(spare) => self.spare = self.spare.saturating_add(u32::from(spare)),
            None => self.none = self.none.saturating_add(1),
        }
    }
}

fn show_times(rt: &HostRuntime, name: &str, times: &[u64], marks: u64) -> anyhow::Result<()> {
    let total = times
        .iter()
        .fold(0, |sum: u64, nanos| sum.saturating_add(*nanos));
    if let (Some(median), Some(worst)) = (times.get(times.len() / 2), times.last()) {
        eprintln!(rt;
            "{name}: median {median} ns, worst {worst} ns, total {total} ns, plans {marks}"
        )?;
    }
    Ok(())
}

pub(crate) fn run(rt: &HostRuntime, name: &str, rounds: u32) -> anyhow::Result<()> {
    let family = read(rt, name)?;
    let mut sums = Sums::default();
    let mut times = Vec::new(rt.alloc());
    let mut marks: u64 = 0;
    for (junction, known) in family.junctions.iter().zip(family.answers.iter()) {
        let timed = time(rt, junction, rounds)?;
        sums.add(timed.spare, *known);
        marks = marks.wrapping_add(timed.mark);
        times.push(timed.nanos)?;
    }
    times.sort_unstable();
    let count = family.junctions.len();
    let Sums { right, none, spare } = sums;
    println!(rt;
        "{name}: {count} junctions, {right} right, {none} without a plan, {spare} to spare in all"
    )?;
    show_times(rt, name, times.as_slice(), marks)
}
