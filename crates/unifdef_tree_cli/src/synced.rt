//! A writer whose bytes reach the disk.

ghost use Rattle.std.specs.Prelude.{◌≡◌};

use std::fs::OpenFile;
use std::io::{self, Write};

/// A writer to a file, which waits after each write until the bytes are on disk. So a machine that
/// stops keeps them, whatever is done after the write.
#[derive(Drop)]
pub(crate) struct Synced<W: Write + Drop, F: OpenFile + Drop> {
    out: W,
    /// The file that `out` writes to.
    file: F,
}

impl<W: Write + Drop, F: OpenFile + Drop> Synced<W, F> {
    /// Returns a writer to a file that is open twice: `out` writes to it.
    pub(crate) fn new(out: W, file: F) -> Synced<W, F>
        ensures { result ≡ record { out = out; file = file } }
    {
        Synced { out, file }
    }
}

impl<W: Write + Drop, F: OpenFile + Drop> Write for Synced<W, F> {
    fn write(&mut self, buf: &[u8]) -> io::Result<usize> {
        let count = self.out.write(buf)?;
        self.file.sync_data()?;
        Ok(count)
    }

    fn flush(&mut self) -> io::Result<()> {
        self.out.flush()
    }
}
