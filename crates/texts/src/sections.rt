// A junction of a text: its name, what its lines said, and why it can't be read, if it can't.
use crate::drafts::Draft;
use crate::saying::Fault;

// The line at which a junction can't be read, and what is wrong with it.
#[derive(Clone, Copy, Debug, PartialEq, Eq)]
pub struct Stop<'a> {
    pub line: u64,
    pub fault: Fault<'a>,
}

#[derive(Drop)]
pub struct Section<'a> {
    pub(crate) name: Option<&'a [u8]>,
    pub(crate) draft: Draft<'a>,
    pub(crate) stop: Option<Stop<'a>>,
}
