// The answers to all junctions of a text.
ghost use Rattle.std.specs.Prelude.{[], map, IfOk, if◌then◌else◌, Some, None, OnOk};
ghost use Rattle.greens.specs.Plans.{green_of};
ghost use Rattle.crossing.specs.Taken.{site_of};
ghost use Rattle.planning.specs.Lengths.{BestFound};
ghost use Rattle.texts.specs.Printed.{Adds};
ghost use Rattle.texts.specs.Rings.{rings};
ghost use Rattle.texts.specs.Sections.{told_of, told_in};
ghost use Rattle.wetorunge.specs.Answers.{Planned, Taken, Printed, AllPrinted};

use crossing::Junction;
use greens::{Cycle, Plan};
use planning::{Found, best};
use std::alloc::{AllocError, Global};
use texts::{Reader, Section, put_answer, put_none, put_refusal, put_rings};

// What is printed for a text, and whether a junction of it was refused.
#[derive(Debug, PartialEq, Eq, Drop)]
pub struct Answer {
    pub bytes: Vec<u8>,
    pub refused: bool,
}

// The rings of a plan, if they are asked for.
fn put_drawn(
    out: &mut Vec<u8>,
    cycle: Cycle,
    names: &[&[u8]],
    plan: &Plan,
    drawn: bool,
) -> Result<(), AllocError>
    ensures { OnOk result (Adds out.old.items out.new.items (if drawn then rings cycle.seconds (map (λ x. x.now) names.now) (green_of plan.now.greens) else [])) }
{
    if drawn {
        put_rings(out, cycle, names, plan)
    } else {
        Ok(())
    }
}

// The line for a plan that was found, and its rings.
fn put_found(
    out: &mut Vec<u8>,
    section: &Section<'_>,
    junction: &Junction,
    found: Found,
    drawn: bool,
) -> Result<(), AllocError>
    requires { BestFound (site_of junction.now) (Some found) }
    ensures { OnOk result (Planned (told_of section.now) drawn junction.now out.old.items out.new.items) }
{
    put_answer(
        out,
        section.name(),
        section.names(),
        &found.plan,
        found.spare,
    )?;
    put_drawn(out, junction.cycle(), section.names(), &found.plan, drawn)
}

// The line for a junction that was taken, and its rings.
fn put_taken(
    out: &mut Vec<u8>,
    section: &Section<'_>,
    junction: &Junction,
    drawn: bool,
) -> Result<(), AllocError>
    ensures { OnOk result (Taken (told_of section.now) drawn junction.now out.old.items out.new.items) }
{
    match best(junction) {
        None => put_none(out, section.name()),
        Some(found) => put_found(out, section, junction, found, drawn),
    }
}

// What is printed for a junction of the text; true where it is refused.
fn put_section(out: &mut Vec<u8>, section: &Section<'_>, drawn: bool) -> Result<bool, AllocError>
    ensures { IfOk result (λ refused. Printed (told_of section.now) drawn out.old.items out.new.items refused) }
{
    match section.junction(*out.allocator())? {
        Err(refusal) => {
            put_refusal(out, section, refusal)?;
            Ok(true)
        }
        Ok(junction) => {
            put_taken(out, section, &junction, drawn)?;
            Ok(false)
        }
    }
}

// The answers to all junctions of a text, in their order.
pub fn answer_all(heap: Global, text: &[u8], drawn: bool) -> Result<Answer, AllocError>
    ensures { IfOk result (λ a. AllPrinted (told_in text.now) drawn [] a.bytes.items a.refused) }
{
    let mut reader = Reader::new(text);
    let mut out = Vec::new(heap);
    let mut refused = false;
    while let Some(section) = reader.next(heap)? {
        let one = put_section(&mut out, &section, drawn)?;
        refused |= one;
    }
    Ok(Answer {
        bytes: out,
        refused,
    })
}
