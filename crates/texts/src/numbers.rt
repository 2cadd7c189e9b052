// The numbers of a junction that a text says, read as a junction or refused.
ghost use Rattle.std.specs.Prelude.{◌≡◌, IfOk};
ghost use Rattle.texts.specs.Drafts.{sofar_of};
ghost use Rattle.texts.specs.Sections.{told_of};
ghost use Rattle.texts.specs.Numbers.{table_said, Numbered, Answered};

use crate::drafts::{Clearing, Draft};
use crate::sections::Section;
use crate::taking::number_said;
use crossing::{Junction, Refusal};
use std::alloc::{AllocError, Global};

// The table for some streams, row by row, or none for more than a junction can have.
fn table_of(heap: Global, streams: usize, clearings: &[Clearing]) -> Result<Vec<u8>, AllocError>
    ensures { IfOk result (λ v. v.items ≡ table_said streams clearings.now) }
{
    if streams > 12 {
        return Ok(Vec::new(heap));
    }
    (0..streams * streams)
        .map(|place| number_said(clearings, place / streams, place % streams).unwrap_or(0))
        .collect(heap)
}

impl<'a> Draft<'a> {
    // The junction that the numbers give.
    fn read(&self, heap: Global) -> Result<Result<Junction, Refusal>, AllocError>
        ensures { IfOk result (λ answer. Numbered (sofar_of self.now) answer) }
    {
        let count = self.names.len();
        let table = table_of(heap, count, self.clearings.as_slice())?;
        // With no cycle a section is stopped, and not read.
        let cycle = self.cycle.unwrap_or(0);
        Ok(Junction::read(
            cycle,
            count as u64,
            self.figures.as_slice().as_flattened(),
            table.as_slice(),
        ))
    }
}

impl<'a> Section<'a> {
    // The junction, or why there is none.
    pub fn junction(&self, heap: Global) -> Result<Result<Junction, Refusal>, AllocError>
        ensures { IfOk result (λ answer. Answered (told_of self.now) answer) }
    {
        match self.stop {
            Some(stop) => Ok(Err(Refusal::Text(stop.line))),
            None => self.draft.read(heap),
        }
    }
}
