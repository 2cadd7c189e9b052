// Bytes and text put after what is printed already. A file may hold any bytes and a name is printed as it stands, so an answer is bytes, and no String or Display of its own.
ghost use Rattle.std.specs.Prelude.{IfSome, OnOk};
ghost use Rattle.texts.specs.Printed.{Adds};

use std::alloc::AllocError;
use std::fmt::Display;

// What is printed on.
pub(crate) trait Page {
    fn put(&mut self, bytes: &[u8]) -> Result<(), AllocError>;

    // What `write!` and `writeln!` call; that of `io::Write` has other errors.
    fn write_fmt<D: Display + Drop>(&mut self, text: D) -> Result<(), AllocError>;
}

impl Page for Vec<u8> {
    fn put(&mut self, bytes: &[u8]) -> Result<(), AllocError>
        ensures { OnOk result (Adds self.old.items self.new.items bytes.now) }
    {
        self.extend_from_slice(bytes)
    }

    fn write_fmt<D: Display + Drop>(&mut self, text: D) -> Result<(), AllocError>
        ensures { OnOk result (IfSome (D.output text) (Adds self.old.items self.new.items)) }
    {
        let written = String::format(*self.allocator(), text)?;
        self.put(written.as_bytes())
    }
}
