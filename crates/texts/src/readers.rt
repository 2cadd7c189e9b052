// A reader of the junctions of a text, one after the other.
ghost use Rattle.std.specs.Prelude.{◌+◌, ◌^◌, ◌<◌, length};

// What was not read yet, and the number of its first line.
#[derive(Clone, Copy)]
pub struct Rest<'a> {
    pub(crate) text: &'a [u8],
    pub(crate) line: u64,
    // The name of the junction that begins there.
    pub(crate) name: Option<&'a [u8]>,
    ghost counted: { line + length text.now < 2 ^ 64 },
}

#[derive(Drop)]
pub struct Reader<'a> {
    // Where the next junction is read from, if one is to come.
    pub(crate) rest: Option<Rest<'a>>,
}
