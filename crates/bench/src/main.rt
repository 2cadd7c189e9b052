// The benchmark: the search on families of junctions whose answers are known. Answers go to standard output, timings to standard error.
#![tactic(auto)]

mod families;
mod reading;
mod rounds;

use std::env;

const FAMILIES: [&str; 7] = ["tiny", "small", "town", "twelve", "dense", "odd", "equal"];

// Its argument is how many rounds to run: of each junction's times the shortest is taken.
fn main(rt: HostRuntime) -> anyhow::Result<()> {
    let rounds = match env::args(&rt)?.nth(1) {
        Some(word) => word.as_str().parse::<u32>()?,
        None => 1,
    };
    for name in FAMILIES {
        families::run(&rt, name, rounds)?;
    }
    Ok(())
}
