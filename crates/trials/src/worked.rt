// Worked junctions: by the search, by the entry with its room judged, and by all plans tried.
use crate::answers::{Shown, by_entry, by_search, by_trying};
use crossing::Junction;

pub(crate) fn show_all(rt: &HostRuntime) -> anyhow::Result<()> {
    let two = &[2, 3, 2, 2];
    let three = &[2, 2, 2, 2, 2, 2];
    show(rt, "two that cross", 12, two, &[0, 3, 3, 0])?;
    show(
        rt,
        "two that cross, and too many come",
        12,
        &[2, 5, 2, 4],
        &[0, 3, 3, 0],
    )?;
    show(rt, "two that don't cross", 12, two, &[0, 0, 0, 0])?;
    show(
        rt,
        "three, the first crosses both others",
        12,
        three,
        &[0, 2, 2, 2, 0, 0, 2, 0, 0],
    )?;
    show(
        rt,
        "three that all cross",
        12,
        three,
        &[0, 2, 2, 2, 0, 2, 2, 2, 0],
    )?;
    show(
        rt,
        "three that need nothing clear one way round",
        14,
        &[2, 3, 2, 1, 2, 2],
        &[0, 3, 1, 1, 0, 3, 3, 1, 0],
    )
}

fn show(
    rt: &HostRuntime,
    name: &str,
    cycle: u64,
    pairs: &[u8],
    table: &[u8],
) -> anyhow::Result<()> {
    let streams = pairs.len() as u64 / 2;
    let Ok(junction) = Junction::read(cycle, streams, pairs, table) else {
        println!(rt; "{name}: refused")?;
        return Ok(());
    };
    let mut room = vec![in rt.alloc(); 0; pairs.len()]?;
    let entry = Shown(by_entry(&junction, cycle, pairs, table, room.as_mut_slice()));
    let search = Shown(by_search(&junction));
    let tried = Shown(by_trying(&junction));
    println!(rt; "{name}: search {search}, entry {entry}, all plans tried {tried}")?;
    Ok(())
}
