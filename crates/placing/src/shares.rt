// What a crowd is counted with: who is in it, how far any two are apart, and how much room is each one's own.
ghost use Rattle.std.specs.Prelude.{◌≡◌, [], false, slice_index, slice_index_or};

use crate::sizes::MOST;

// A set of its own: that of the layer of groups knows junctions, and no more than these two lines would be shared.
#[derive(Clone, Copy, Debug, Default, PartialEq, Eq)]
pub struct Group {
    pub(crate) member: [bool; MOST],
}

impl Group {
    pub(crate) fn has(&self, green: usize) -> bool
        ensures { result ≡ slice_index_or self.now.member green false }
    {
        self.member.get(green).copied().unwrap_or(false)
    }

    // The same group with one more; past the last that there is room for there is none to add.
    pub(crate) fn with(mut self, green: usize) -> Group {
        if let Some(member) = self.member.get_mut(green) {
            *member = true;
        }
        self
    }
}

// A row for each green, in it a number for each: by how much the row's begins before the column's, or before its next turn.
// Not one type with the gaps, whose numbers are smaller: a generic struct can't hold arrays of its parameter.
#[derive(Clone, Copy, Debug, PartialEq, Eq)]
pub struct Spans {
    pub(crate) span: [[u32; MOST]; MOST],
}

impl Spans {
    // The span from one green to another; 0 past the last that there is room for.
    pub(crate) fn between(&self, first: usize, second: usize) -> u32
        ensures { result ≡ slice_index (slice_index_or self.now.span first []) second }
    {
        let row = self.span.get(first);
        row.and_then(|row| row.get(second)).copied().unwrap_or(0)
    }
}

#[derive(Clone, Copy, Debug, PartialEq, Eq)]
pub struct Margins {
    pub(crate) of: [u32; MOST],
}

impl Margins {
    // The room that is a green's own; 0 past the last that there is room for.
    pub(crate) fn of(&self, green: usize) -> u32
        ensures { result ≡ slice_index self.now.of green }
    {
        self.of.get(green).copied().unwrap_or(0)
    }
}
