// A plan as rows of signs, a sign a second.
ghost use Rattle.std.specs.Prelude.{◌≡◌, map, OnOk};
ghost use Rattle.greens.specs.Plans.{green_of};
ghost use Rattle.texts.specs.Printed.{Adds};
ghost use Rattle.texts.specs.Answers.{each_from};
ghost use Rattle.texts.specs.Rings.{goes_on, wide, widest, blanks, signs_to, ring_row, mark, marks_to, scale_row, rings};

use crate::answers::put_each;
use crate::printing::Page;
use greens::{Cycle, Green, Plan};
use std::alloc::AllocError;
use std::iter;

// Whether a byte goes on with a sign begun by the byte before it.
fn goes_on(byte: u8) -> bool
    ensures { result ≡ goes_on byte }
{
    matches!(byte, 0x80..=0xbf)
}

// How many signs wide a name is.
fn width_of(name: &[u8]) -> usize
    ensures { result ≡ wide name.now }
{
    // Of a long name `filter` and `count` would take half as long again.
    name.iter().map(|&byte| usize::from(!goes_on(byte))).sum()
}

// The width of the widest name.
fn widest_of(names: &[&[u8]]) -> usize
    ensures { result ≡ widest (map (λ x. x.now) names.now) }
{
    names.iter().map(|name| width_of(name)).max().unwrap_or(0)
}

fn put_blanks(out: &mut Vec<u8>, count: usize) -> Result<(), AllocError>
    ensures { OnOk result (Adds out.old.items out.new.items (blanks count)) }
{
    out.extend(iter::repeat_n(b' ', count))
}

fn put_signs(out: &mut Vec<u8>, cycle: Cycle, green: Green) -> Result<(), AllocError>
    ensures { OnOk result (Adds out.old.items out.new.items (signs_to cycle.seconds green cycle.seconds)) }
{
    out.extend((0..cycle.seconds()).map(|second| if green.on(cycle, second) { b'#' } else { b'.' }))
}

// The next ten of the scale, after those up to 10 * `tens`.
fn put_mark(out: &mut Vec<u8>, tens: u8) -> Result<(), AllocError>
    ensures { OnOk result (Adds out.old.items out.new.items (mark tens)) }
{
    let last = 10 * u64::from(tens);
    let digits = format!(in *out.allocator(); "{last}")?;
    put_blanks(out, 10usize.saturating_sub(digits.len()))?;
    write!(out, "{}", last + 10)
}

// A loop and no chain: of what a closure changes nothing would be known after it.
fn put_marks(out: &mut Vec<u8>, tens: u8) -> Result<(), AllocError>
    ensures { OnOk result (Adds out.old.items out.new.items (marks_to tens)) }
{
    for ten in 0..tens {
        put_mark(out, ten)?;
    }
    Ok(())
}

fn put_scale(out: &mut Vec<u8>, width: usize, cycle: Cycle) -> Result<(), AllocError>
    ensures { OnOk result (Adds out.old.items out.new.items (scale_row width cycle.seconds)) }
{
    put_blanks(out, width)?;
    out.put(b" 0")?;
    put_marks(out, (cycle.seconds() - 1) / 10)?;
    out.put(b"\n")
}

fn put_row(
    out: &mut Vec<u8>,
    width: usize,
    cycle: Cycle,
    name: &[u8],
    green: Green,
) -> Result<(), AllocError>
    ensures { OnOk result (Adds out.old.items out.new.items (ring_row width cycle.seconds name.now green)) }
{
    out.put(name)?;
    put_blanks(out, width.saturating_sub(width_of(name)))?;
    out.put(b" ")?;
    put_signs(out, cycle, green)?;
    out.put(b"\n")
}

// The rows below an answer.
pub fn put_rings(
    out: &mut Vec<u8>,
    cycle: Cycle,
    names: &[&[u8]],
    plan: &Plan,
) -> Result<(), AllocError>
    ensures { OnOk result (Adds out.old.items out.new.items (rings cycle.seconds (map (λ x. x.now) names.now) (green_of plan.now.greens))) }
{
    let width = widest_of(names);
    put_scale(out, width, cycle)?;
    put_each(
        out,
        names,
        plan,
        |out, name, green| put_row(out, width, cycle, name, green),
    )
}
