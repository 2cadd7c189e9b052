// The line that says why a junction is refused.
ghost use Rattle.std.specs.Prelude.{OnOk};
ghost use Rattle.texts.specs.Printed.{Adds, Grows};
ghost use Rattle.texts.specs.Refused.{refused_words, Says};
ghost use Rattle.texts.specs.Sections.{told_of};

use crate::answers::put_title;
use crate::printing::Page;
use crate::sections::Section;
use crate::sentences::{say_cycle, say_stop, say_streams, say_table};
use crossing::Refusal;
use std::alloc::AllocError;

// Why a section is refused.
fn say_why(out: &mut Vec<u8>, section: &Section<'_>, refusal: Refusal) -> Result<(), AllocError>
    ensures { OnOk result (Grows out.old.items out.new.items) }
{
    let draft = &section.draft;
    // The casts are proved to lose nothing; `try_from` would ask for an arm that can't happen.
    match refusal {
        Refusal::Cycle(seconds) => say_cycle(out, seconds),
        Refusal::Streams(place) => say_streams(
            out,
            draft.names.as_slice(),
            draft.figures.as_slice().as_flattened(),
            place as usize,
        ),
        Refusal::Table(place) => say_table(
            out,
            draft.names.as_slice(),
            draft.clearings.as_slice(),
            place as usize,
        ),
        Refusal::Room(_) => out.put(b"the room does not fit"),
        Refusal::Text(_) => say_stop(out, section.stop),
    }
}

// The number of a refusal and its place. Piece by piece: all in one `write!` is a text of its own first, which grows as it is made, and took a fifth more.
fn put_refused(out: &mut Vec<u8>, refusal: Refusal) -> Result<(), AllocError>
    ensures { OnOk result (Adds out.old.items out.new.items (refused_words refusal)) }
{
    out.put(b"refused ")?;
    write!(out, "{}", refusal.number())?;
    out.put(b" at ")?;
    write!(out, "{}", refusal.place())?;
    out.put(b": ")
}

// The line that says why a section is refused. Its sentence goes straight behind what was printed: made in a list of its own, one with a very long word needed half as much memory again.
pub fn put_refusal(
    out: &mut Vec<u8>,
    section: &Section<'_>,
    refusal: Refusal,
) -> Result<(), AllocError>
    ensures { OnOk result (Says out.old.items out.new.items (told_of section.now).name refusal) }
{
    put_title(out, section.name())?;
    put_refused(out, refusal)?;
    say_why(out, section, refusal)?;
    out.put(b"\n")
}
