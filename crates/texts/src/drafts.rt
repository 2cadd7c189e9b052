// What the lines of a junction said so far.

// The table's number for two streams, in this order.
#[derive(Clone, Copy, Debug, PartialEq, Eq)]
pub struct Clearing {
    pub first: usize,
    pub next: usize,
    pub number: u8,
}

#[derive(Drop)]
pub struct Draft<'a> {
    pub(crate) cycle: Option<u64>,
    // Two lists and not one of streams: the printers are lent the names as they stand, and a junction is read from the figures.
    pub(crate) names: Vec<&'a [u8]>,
    pub(crate) figures: Vec<[u8; 2]>,
    pub(crate) clearings: Vec<Clearing>,
}
