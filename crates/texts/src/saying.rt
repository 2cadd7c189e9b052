// A line of a text, by its words alone.
ghost use Rattle.std.specs.Prelude.{◌≡◌, map};
ghost use Rattle.texts.specs.Words.{number_in};
ghost use Rattle.texts.specs.Lines.{lasts, with_number, line_in, numbered_stream, three_say, line_said};

use crate::wording::{number, same};

// What is wrong with a line, in the words of the text.
#[derive(Clone, Copy, Debug, PartialEq, Eq)]
pub enum Fault<'a> {
    // It is of no kind.
    NoKind,
    // A word stands where a number is wanted, in a line that has to be so.
    NoNumber(&'a [u8], &'a [u8]),
    // A name is none of the streams said above.
    NoStream(&'a [u8]),
    // A stream's name is said again.
    StreamAgain(&'a [u8]),
    // The cycle is said again.
    CycleAgain,
    // What has to be clear between two is said again.
    PairAgain(&'a [u8], &'a [u8]),
    // The junction ends, and no cycle was said.
    NoCycle,
}

// What a line says, where nothing is wrong with it.
#[derive(Clone, Copy, Debug, PartialEq, Eq)]
pub enum Line<'a> {
    Nothing,
    Junction(&'a [u8]),
    Cycle(u64),
    // A stream: its name, at least how long, and how many come.
    Stream(&'a [u8], u64, u64),
    // What has to be clear after the first before the last.
    Pair(&'a [u8], u64, &'a [u8]),
}

// How long the cycle is.
fn cycle_in<'a>(seconds: &'a [u8]) -> Result<Line<'a>, Fault<'a>>
    ensures { line_said result ≡ with_number (number_in seconds.now) lasts }
{
    let long = number(seconds).ok_or(Fault::NoNumber(seconds, b"cycle SECONDS"))?;
    Ok(Line::Cycle(long))
}

// What has to be clear after the first before the last.
fn pair_in<'a>(first: &'a [u8], seconds: &'a [u8], next: &'a [u8]) -> Result<Line<'a>, Fault<'a>>
    ensures { line_said result ≡ three_say first.now seconds.now next.now }
{
    let clear = number(seconds).ok_or(Fault::NoNumber(seconds, b"NAME SECONDS NAME"))?;
    Ok(Line::Pair(first, clear, next))
}

// A stream, from its name and the words that have to be numbers.
fn stream_in<'a>(name: &'a [u8], least: &'a [u8], comes: &'a [u8]) -> Result<Line<'a>, Fault<'a>>
    ensures { line_said result ≡ numbered_stream name.now (number_in least.now) (number_in comes.now) }
{
    let form = b"NAME least SECONDS comes COUNT";
    let long = number(least).ok_or(Fault::NoNumber(least, form))?;
    let many = number(comes).ok_or(Fault::NoNumber(comes, form))?;
    Ok(Line::Stream(name, long, many))
}

// What the words of a line say, or what is wrong with it.
#[tactic(auto, unfolding(crate::specs::Lines::line_in))]
pub(crate) fn line_of<'a>(words: &[&'a [u8]]) -> Result<Line<'a>, Fault<'a>>
    ensures { line_said result ≡ line_in (map (λ x. x.now) words.now) }
{
    match words {
        [] => Ok(Line::Nothing),
        [word, name] if same(word, b"junction") => Ok(Line::Junction(name)),
        [word, seconds] if same(word, b"cycle") => cycle_in(seconds),
        [first, seconds, next] => pair_in(first, seconds, next),
        [name, second, least, fourth, comes] if same(second, b"least") && same(fourth, b"comes") =>
            { stream_in(name, least, comes) }
        _ => Err(Fault::NoKind),
    }
}
