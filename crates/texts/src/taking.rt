// A line taken into what a junction's lines said so far, or why it is not.
ghost use Rattle.std.specs.Prelude.{◌≡◌, map};
ghost use Rattle.texts.specs.Words.{capped};
ghost use Rattle.texts.specs.Lines.{line_said, clears};
ghost use Rattle.texts.specs.Drafts.{fresh, place, number_said, with_cycle, with_stream, with_line, sofar_of, Took};

use crate::drafts::{Clearing, Draft};
use crate::saying::{Fault, Line};
use crate::wording::same;
use std::alloc::{AllocError, AllocFailed, Global};

// Why a line is not taken.
#[derive(Clone, Copy, Debug, PartialEq, Eq)]
pub enum Untaken<'a> {
    Fault(Fault<'a>),
    Memory(AllocError),
}

impl<'a> From<Fault<'a>> for Untaken<'a> {
    ghost use Rattle.texts.specs.declared.taking.Untaken.TheVariants.{Fault};

    ghost from_gives = { λ fault e. e ≡ Fault fault };

    fn from(fault: Fault<'a>) -> Untaken<'a> {
        Untaken::Fault(fault)
    }
}

impl<T: Drop> From<AllocFailed<T>> for Untaken<'_> {
    ghost use Rattle.std.specs.Prelude.{alloc_error};
    ghost use Rattle.texts.specs.declared.taking.Untaken.TheVariants.{Memory};

    ghost from_gives = { λ _ e. e ≡ Memory alloc_error };

    fn from(failed: AllocFailed<T>) -> Self {
        Untaken::Memory(failed.into())
    }
}

// The place of a name among the streams', if it is there.
fn place_of(names: &[&[u8]], name: &[u8]) -> Option<usize>
    ensures { result ≡ place name.now (map (λ x. x.now) names.now) }
{
    names.iter().position(|&other| same(other, name))
}

// The table's number for two streams, in this order, if something was said of them. Looked for from the front: they are few, and a map by two streams would be no plainer.
pub(crate) fn number_said(clearings: &[Clearing], first: usize, next: usize) -> Option<u8>
    ensures { result ≡ number_said clearings.now first next }
{
    clearings
        .iter()
        .find(|clearing| clearing.first == first && clearing.next == next)
        .map(|clearing| clearing.number)
}

// A number as a byte that is held for it.
fn byte(number: u64) -> u8
    ensures { result ≡ capped 255 number }
{
    u8::try_from(number).unwrap_or(u8::MAX)
}

impl<'a> Draft<'a> {
    // Nothing was said yet.
    pub(crate) fn new(heap: Global) -> Draft<'a>
        ensures { sofar_of result ≡ fresh }
    {
        Draft {
            cycle: None,
            names: Vec::new(heap),
            figures: Vec::new(heap),
            clearings: Vec::new(heap),
        }
    }

    fn take_cycle(&mut self, seconds: u64) -> Result<(), Untaken<'a>>
        ensures { Took (with_cycle (sofar_of self.old) seconds self.old.cycle) result (sofar_of self.old) (sofar_of self.new) }
    {
        if self.cycle.is_some() {
            return Err(Untaken::Fault(Fault::CycleAgain));
        }
        self.cycle = Some(seconds);
        Ok(())
    }

    fn take_stream(&mut self, name: &'a [u8], least: u64, comes: u64) -> Result<(), Untaken<'a>>
        ensures { Took (with_stream (sofar_of self.old) name.now least comes) result (sofar_of self.old) (sofar_of self.new) }
    {
        if place_of(self.names.as_slice(), name).is_some() {
            return Err(Untaken::Fault(Fault::StreamAgain(name)));
        }
        self.names.push(name)?;
        self.figures.push([byte(least), byte(comes)])?;
        Ok(())
    }

    // What has to be clear between two streams, by their names.
    fn take_pair(
        &mut self,
        first: &'a [u8],
        seconds: u64,
        next: &'a [u8],
    ) -> Result<(), Untaken<'a>>
        ensures { Took (with_line (sofar_of self.old) (clears first.now seconds next.now)) result (sofar_of self.old) (sofar_of self.new) }
    {
        let names = self.names.as_slice();
        let one = place_of(names, first).ok_or(Fault::NoStream(first))?;
        let other = place_of(names, next).ok_or(Fault::NoStream(next))?;
        if number_said(self.clearings.as_slice(), one, other).is_some() {
            return Err(Untaken::Fault(Fault::PairAgain(first, next)));
        }
        self.clearings.push(Clearing {
            first: one,
            next: other,
            number: byte(seconds.min(254)) + 1,
        })?;
        Ok(())
    }

    // A line of the junction.
    pub(crate) fn take(&mut self, line: Result<Line<'a>, Fault<'a>>) -> Result<(), Untaken<'a>>
        ensures { Took (with_line (sofar_of self.old) (line_said line.entry)) result (sofar_of self.old) (sofar_of self.new) }
    {
        match line? {
            Line::Nothing => Ok(()),
            Line::Junction(_) => Err(Untaken::Fault(Fault::NoKind)),
            Line::Cycle(seconds) => self.take_cycle(seconds),
            Line::Stream(name, least, comes) => self.take_stream(name, least, comes),
            Line::Pair(first, seconds, next) => self.take_pair(first, seconds, next),
        }
    }
}
