// Trials: worked junctions, and random small ones on which the search has to agree with all plans tried.
#![tactic(auto)]

mod answers;
mod comparing;
mod random;
mod worked;

const RANDOM: u32 = 300;

fn main(rt: HostRuntime) -> anyhow::Result<()> {
    worked::show_all(&rt)?;
    comparing::compare_many(&rt, RANDOM)
}
