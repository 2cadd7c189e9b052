// Why a junction is refused, in the words of its text. What was printed before stays as it was.
ghost use Rattle.std.specs.Prelude.{OnOk};
ghost use Rattle.texts.specs.Printed.{Grows};

use crate::drafts::Clearing;
use crate::printing::Page;
use crate::saying::Fault;
use crate::sections::Stop;
use crate::taking::number_said;
use std::alloc::AllocError;

// Words of the text and our own, one after the other.
fn say(out: &mut Vec<u8>, pieces: &[&[u8]]) -> Result<(), AllocError>
    ensures { OnOk result (Grows out.old.items out.new.items) }
{
    for piece in pieces {
        out.put(piece)?;
    }
    Ok(())
}

// What is wrong with a line.
fn say_fault(out: &mut Vec<u8>, fault: Fault<'_>) -> Result<(), AllocError>
    ensures { OnOk result (Grows out.old.items out.new.items) }
{
    match fault {
        Fault::NoKind => out.put(
            b"this line is none of: junction NAME, cycle SECONDS, NAME least SECONDS comes COUNT, NAME SECONDS NAME",
        ),
        Fault::NoNumber(word, form) => say(
            out,
            &[
                b"\"",
                word,
                b"\" is not a number; the line has to be ",
                form,
            ],
        ),
        Fault::NoStream(word) => say(out, &[b"\"", word, b"\" is no stream of this junction"]),
        Fault::StreamAgain(name) => say(out, &[name, b" is said twice"]),
        Fault::CycleAgain => out.put(b"cycle is said twice"),
        Fault::PairAgain(first, next) => say(out, &[first, b" SECONDS ", next, b" is said twice"]),
        Fault::NoCycle => out.put(b"there is no cycle"),
    }
}

pub(crate) fn say_stop(out: &mut Vec<u8>, stop: Option<Stop<'_>>) -> Result<(), AllocError>
    ensures { OnOk result (Grows out.old.items out.new.items) }
{
    match stop {
        Some(stopped) => say_fault(out, stopped.fault),
        None => out.put(b"the text is read otherwise"),
    }
}

// A number that is too large; one that a byte can't hold is not repeated.
fn say_above(out: &mut Vec<u8>, number: Option<u8>) -> Result<(), AllocError>
    ensures { OnOk result (Grows out.old.items out.new.items) }
{
    match number {
        Some(number) => write!(out, " is {number}, above 120"),
        None => out.put(b" is above 120"),
    }
}

// Why a cycle is refused; the largest number stands for all that the machine doesn't hold, as where texts are read.
pub(crate) fn say_cycle(out: &mut Vec<u8>, seconds: u64) -> Result<(), AllocError>
    ensures { OnOk result (Grows out.old.items out.new.items) }
{
    match seconds {
        0 => out.put(b"cycle is 0, below 1"),
        u64::MAX => out.put(b"cycle is above 120"),
        _ => write!(out, "cycle is {seconds}, above 120"),
    }
}

fn name_at<'a>(names: &[&'a [u8]], place: usize) -> &'a [u8] {
    names.get(place).copied().unwrap_or(b"?")
}

// Why the streams are refused: their count, or the number at a place, two for each stream.
pub(crate) fn say_streams(
    out: &mut Vec<u8>,
    names: &[&[u8]],
    figures: &[u8],
    place: usize,
) -> Result<(), AllocError>
    ensures { OnOk result (Grows out.old.items out.new.items) }
{
    let count = names.len();
    if count == 0 {
        return out.put(b"there is no stream");
    }
    if count > 12 {
        return write!(out, "there are {count} streams, above 12");
    }
    let which: &[u8] = if place % 2 == 0 {
        b"least of "
    } else {
        b"comes of "
    };
    say(out, &[which, name_at(names, place / 2)])?;
    say_above(
        out,
        figures.get(place).copied().filter(|&figure| figure < 255),
    )
}

// Two cross, and nothing is said the other way.
fn say_one_way(out: &mut Vec<u8>, first: &[u8], next: &[u8]) -> Result<(), AllocError>
    ensures { OnOk result (Grows out.old.items out.new.items) }
{
    say(
        out,
        &[
            first,
            b" crosses ",
            next,
            b", but ",
            next,
            b" SECONDS ",
            first,
            b" is not said",
        ],
    )
}

// Why a number of the table is refused, beside the one for the same two the other way.
fn say_pair(
    out: &mut Vec<u8>,
    first: &[u8],
    next: &[u8],
    number: Option<u8>,
    back: Option<u8>,
) -> Result<(), AllocError>
    ensures { OnOk result (Grows out.old.items out.new.items) }
{
    match (number, back) {
        (Some(number), _) if number > 121 => {
            say(out, &[b"what is clear after ", first, b" before ", next])?;
            say_above(out, (number < 255).then(|| number - 1))
        }
        (_, None) => say_one_way(out, first, next),
        (None, Some(_)) => say_one_way(out, next, first),
        (Some(_), Some(_)) => say(out, &[first, b" crosses itself"]),
    }
}

// Why the table is refused at a place, row by row.
pub(crate) fn say_table(
    out: &mut Vec<u8>,
    names: &[&[u8]],
    clearings: &[Clearing],
    place: usize,
) -> Result<(), AllocError>
    ensures { OnOk result (Grows out.old.items out.new.items) }
{
    if names.is_empty() {
        return out.put(b"there is no stream");
    }
    let first = place / names.len();
    let next = place % names.len();
    let number = number_said(clearings, first, next);
    let back = number_said(clearings, next, first);
    say_pair(
        out,
        name_at(names, first),
        name_at(names, next),
        number,
        back,
    )
}
