// The junctions of a text read one after the other.
ghost use Rattle.std.specs.Prelude.{◌≡◌, ◌+◌, ◌<◌, [], ◌∷◌, IfOk, MatchOption, OnOk};
ghost use Rattle.std.specs.Option.{option_map};
ghost use Rattle.texts.specs.Words.{words};
ghost use Rattle.texts.specs.Lines.{line_said, line_in};
ghost use Rattle.texts.specs.Sections.{opened, begin_name, says, on_line, closed, told_in, told_of, told_after, left_at, left_of};

use crate::drafts::Draft;
use crate::readers::{Reader, Rest};
use crate::saying::{Fault, Line, line_of};
use crate::sections::{Section, Stop};
use crate::taking::Untaken;
use crate::wording::{cut_line, words_of};
use std::alloc::{AllocError, Global};

// What a line says, or what is wrong with it.
fn read_line<'a>(heap: Global, line: &'a [u8]) -> Result<Result<Line<'a>, Fault<'a>>, AllocError>
    ensures { IfOk result (λ l. line_said l ≡ line_in (words line.now)) }
{
    let words = words_of(heap, line)?;
    Ok(line_of(words.as_slice()))
}

// The name of the junction that a line begins, if it begins one.
fn name_begun<'a>(line: Result<Line<'a>, Fault<'a>>) -> Option<&'a [u8]>
    ensures { option_map (λ x. x.now) result ≡ begin_name (line_said line.entry) }
{
    match line {
        Ok(Line::Junction(name)) => Some(name),
        _ => None,
    }
}

// Whether a line says anything.
fn says_something(line: Result<Line<'_>, Fault<'_>>) -> bool
    ensures { result ≡ says (line_said line.entry) }
{
    !matches!(line, Ok(Line::Nothing))
}

impl<'a> Section<'a> {
    // A junction that begins.
    fn begin(heap: Global, name: Option<&'a [u8]>) -> Section<'a>
        ensures { told_of result ≡ opened (option_map (λ x. x.now) name.entry) }
    {
        Section {
            name,
            draft: Draft::new(heap),
            stop: None,
        }
    }

    // A line more.
    fn take(&mut self, number: u64, line: Result<Line<'a>, Fault<'a>>) -> Result<(), AllocError>
        ensures { OnOk result (told_of self.new ≡ on_line number (line_said line.entry) (told_of self.old)) }
    {
        if self.stop.is_some() {
            return Ok(());
        }
        match self.draft.take(line) {
            Ok(()) => Ok(()),
            Err(Untaken::Fault(fault)) => {
                self.stop = Some(Stop {
                    line: number,
                    fault,
                });
                Ok(())
            }
            Err(Untaken::Memory(error)) => Err(error),
        }
    }

    // The junction as it is at the line that ends it.
    fn closed(mut self, number: u64) -> Section<'a>
        ensures { told_of result ≡ closed number (told_of self.entry) }
    {
        if self.draft.cycle.is_none() {
            self.stop.get_or_insert(Stop {
                line: number,
                fault: Fault::NoCycle,
            });
        }
        self
    }
}

impl<'a> Rest<'a> {
    // The next junction, and what is left after it.
    fn section(self, heap: Global) -> Result<(Section<'a>, Option<Rest<'a>>), AllocError>
        ensures { IfOk result (λ p. told_after self.entry ≡ told_of p.0 ∷ left_at p.1) }
    {
        let mut section = self.name.map(|name| Section::begin(heap, Some(name)));
        let mut text = self.text;
        let mut number = self.line;
        while !text.is_empty() {
            let (first, after) = cut_line(text);
            let line = read_line(heap, first)?;
            if let Some(name) = name_begun(line) {
                if let Some(whole) = section {
                    let rest = Rest {
                        text: after,
                        line: number + 1,
                        name: Some(name),
                    };
                    return Ok((whole.closed(number), Some(rest)));
                }
                section = Some(Section::begin(heap, Some(name)));
            } else if says_something(line) {
                // A value and no closure, whose result would name a lifetime: that gets no proof.
                section
                    .get_or_insert(Section::begin(heap, None))
                    .take(number, line)?;
            }
            text = after;
            number += 1;
        }
        let whole = section.unwrap_or(Section::begin(heap, None));
        Ok((whole.closed(number), None))
    }
}

impl<'a> Reader<'a> {
    // A reader of a whole text.
    pub fn new(text: &'a [u8]) -> Reader<'a>
        ensures { left_of result ≡ told_in text.now }
    {
        Reader {
            rest: Some(Rest {
                text,
                line: 0,
                name: None,
            }),
        }
    }

    // The next junction of the text, if one is to come. This is no `Iterator`: the heap is lent at each call, and after one that fails the same junction can be asked for again.
    pub fn next(&mut self, heap: Global) -> Result<Option<Section<'a>>, AllocError>
        ensures { IfOk result (λ o. MatchOption o (left_of self.old ≡ []) (λ s. left_of self.old ≡ told_of s ∷ left_of self.new)) }
    {
        let Some(rest) = self.rest else {
            return Ok(None);
        };
        let (section, after) = rest.section(heap)?;
        self.rest = after;
        Ok(Some(section))
    }
}
