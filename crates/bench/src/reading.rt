// A family's junctions and their known answers, read from its two files.
use anyhow::anyhow;
use crossing::Junction;
use std::alloc::Global;
use std::fs;
use texts::Reader;

// More junctions than any family has.
const MANY: u32 = 100_000;

// Two lists, one from each file: where one file has more, all of it is read and counted, and what the other has not is compared with nothing.
#[derive(Debug, PartialEq, Eq, Drop)]
pub struct Family {
    pub junctions: Vec<Junction>,
    // What the worst-off stream has to spare at best, or none.
    pub answers: Vec<Option<u8>>,
}

fn junctions_in(heap: Global, text: &str) -> anyhow::Result<Vec<Junction>> {
    let mut junctions = Vec::new(heap);
    let mut reader = Reader::new(text.as_bytes());
    for _ in 0..MANY {
        let Some(section) = reader.next(heap)? else {
            break;
        };
        let Ok(junction) = section.junction(heap)? else {
            return Err(anyhow!("a junction is refused"));
        };
        junctions.push(junction)?;
    }
    Ok(junctions)
}

// What a word of the answers says.
fn spare_in(word: &str) -> anyhow::Result<Option<u8>> {
    if word == "none" {
        return Ok(None);
    }
    Ok(Some(word.parse()?))
}

fn answers_in(heap: Global, text: &str) -> anyhow::Result<Vec<Option<u8>>> {
    let mut answers = Vec::new(heap);
    for word in text.split_whitespace() {
        answers.push(spare_in(word)?)?;
    }
    Ok(answers)
}

pub(crate) fn read(rt: &HostRuntime, name: &str) -> anyhow::Result<Family> {
    let heap = rt.alloc();
    let text = fs::read_to_string(rt, format!(in heap; "{name}.txt")?)?;
    let known = fs::read_to_string(rt, format!(in heap; "{name}.answers")?)?;
    Ok(Family {
        junctions: junctions_in(heap, text.as_str())?,
        answers: answers_in(heap, known.as_str())?,
    })
}
