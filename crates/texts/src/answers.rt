// The line that says a plan.
ghost use Rattle.std.specs.Prelude.{ℕ, List, map, OnOk};
ghost use Rattle.std.specs.Option.{option_map};
ghost use Rattle.greens.specs.Plans.{green_of};
ghost use Rattle.greens.specs.declared.lights.Green.{Green};
ghost use Rattle.texts.specs.Printed.{Adds, Puts};
ghost use Rattle.texts.specs.Answers.{span_words, green_words, stream_words, each_from, spare_words, title_words, answer_line, none_line};

use crate::printing::Page;
use greens::{Green, Plan};
use std::alloc::AllocError;

fn put_span(out: &mut Vec<u8>, green: Green) -> Result<(), AllocError>
    ensures { OnOk result (Adds out.old.items out.new.items (span_words green)) }
{
    write!(
        out,
        "{} to {}",
        green.from,
        u64::from(green.from) + u64::from(green.long)
    )
}

fn put_green(out: &mut Vec<u8>, green: Green) -> Result<(), AllocError>
    ensures { OnOk result (Adds out.old.items out.new.items (green_words green)) }
{
    if green.long == 0 {
        out.put(b"never")
    } else {
        put_span(out, green)
    }
}

fn put_stream(out: &mut Vec<u8>, name: &[u8], green: Green) -> Result<(), AllocError>
    ensures { OnOk result (Adds out.old.items out.new.items (stream_words name.now green)) }
{
    out.put(name)?;
    out.put(b" ")?;
    put_green(out, green)?;
    out.put(b", ")
}

// A piece of text for each stream, by its name and its green. The names are lent by a junction of a text and the plan by the search: a struct of both would be made for one call.
pub(crate) fn put_each<F: Fn(&mut Vec<u8>, &[u8], Green) -> Result<(), AllocError>>(
    out: &mut Vec<u8>,
    names: &[&[u8]],
    plan: &Plan,
    put_piece: F,
) -> Result<(), AllocError>
    requires { F.IsAlwaysCallable put_piece }
    ensures { (piece : List ℕ → Green → List ℕ) → Puts (λ o. o.now.items) (F.post put_piece) piece → OnOk result (Adds out.old.items out.new.items (each_from piece (map (λ x. x.now) names.now) 0 (green_of plan.now.greens))) }
{
    for (stream, name) in names.iter().enumerate() {
        put_piece(out, name, plan.green(stream))?;
    }
    Ok(())
}

fn put_spare(out: &mut Vec<u8>, spare: u8) -> Result<(), AllocError>
    ensures { OnOk result (Adds out.old.items out.new.items (spare_words spare)) }
{
    writeln!(out, "spare {spare}")
}

// The name of a junction before its line, if it has one.
pub(crate) fn put_title(out: &mut Vec<u8>, title: Option<&[u8]>) -> Result<(), AllocError>
    ensures { OnOk result (Adds out.old.items out.new.items (title_words (option_map (λ x. x.now) title.entry))) }
{
    if let Some(name) = title {
        out.put(name)?;
        out.put(b": ")?;
    }
    Ok(())
}

// The answer for a junction with a plan.
pub fn put_answer(
    out: &mut Vec<u8>,
    title: Option<&[u8]>,
    names: &[&[u8]],
    plan: &Plan,
    spare: u8,
) -> Result<(), AllocError>
    ensures { OnOk result (Adds out.old.items out.new.items (answer_line (option_map (λ x. x.now) title.entry) (map (λ x. x.now) names.now) (green_of plan.now.greens) spare)) }
{
    put_title(out, title)?;
    put_each(out, names, plan, put_stream)?;
    put_spare(out, spare)
}

// The answer for a junction without one.
pub fn put_none(out: &mut Vec<u8>, title: Option<&[u8]>) -> Result<(), AllocError>
    ensures { OnOk result (Adds out.old.items out.new.items (none_line (option_map (λ x. x.now) title.entry))) }
{
    put_title(out, title)?;
    out.put(b"none\n")
}
