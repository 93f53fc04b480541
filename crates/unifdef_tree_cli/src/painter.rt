//! The colours of a diff on a terminal.

ghost use Rattle.std.specs.Prelude.{◌≡◌, ◌||◌, [], OnOk, true, false, if◌then◌else◌};
ghost use Rattle.std.specs.Io.KnownBytes.{Appends};
ghost use Rattle.unifdef_tree_cli.specs.Painting.{colour_of, has_colour, plain};

use std::io::{self, Write};

/// The bytes that end a colour.
const PLAIN: &[u8] = b"\x1b[m";

/// A writer that colours the lines of a diff: removed ones red, added ones green, and the head of a
/// hunk cyan. All other bytes are written as they are.
#[derive(Drop)]
pub(crate) struct Painter<W: Write + Drop> {
    out: W,
    /// True if the line so far is coloured.
    is_coloured: bool,
    /// True if the next byte begins a line.
    is_at_start: bool,
}

impl<W: Write + Drop> Painter<W> {
    /// Returns a writer at the beginning of a line.
    pub(crate) fn new(out: W) -> Painter<W>
        ensures { result ≡ record { out = out; is_coloured = false; is_at_start = true } }
    {
        Painter {
            out,
            is_coloured: false,
            is_at_start: true,
        }
    }

    /// Writes the colour of a line by its first byte, if it has one.
    fn begin(&mut self, first: u8) -> io::Result<()>
        ensures written { OnOk result (Appends (W.contents self.old.out) (W.contents self.new.out)
            (colour_of first)) }
        ensures coloured { self.new.is_coloured ≡ (has_colour first || self.old.is_coloured) }
        ensures begun { self.new.is_at_start ≡ false }
    {
        self.is_at_start = false;
        let colour = match first {
            b'-' => b"\x1b[31m",
            b'+' => b"\x1b[32m",
            b'@' => b"\x1b[36m",
            _ => return Ok(()),
        };
        self.is_coloured = true;
        self.out.write_all(colour)
    }

    /// Ends the colour of a line.
    fn end(&mut self) -> io::Result<()>
        ensures written { OnOk result (Appends (W.contents self.old.out) (W.contents self.new.out)
            (if self.old.is_coloured then plain else [])) }
        ensures coloured { self.new.is_coloured ≡ false }
        ensures ended { self.new.is_at_start ≡ true }
    {
        self.is_at_start = true;
        if !self.is_coloured {
            return Ok(());
        }
        self.is_coloured = false;
        self.out.write_all(PLAIN)
    }
}

impl<W: Write + Drop> Write for Painter<W> {
    /// Writes the bytes up to the next newline, or the newline.
    fn write(&mut self, buf: &[u8]) -> io::Result<usize> {
        let Some(first) = buf.first() else {
            return Ok(0);
        };
        if *first == b'\n' {
            self.end()?;
            self.out.write_all(b"\n")?;
            return Ok(1);
        }
        if self.is_at_start {
            self.begin(*first)?;
        }
        let len = buf
            .iter()
            .position(|byte| *byte == b'\n')
            .unwrap_or(buf.len());
        self.out.write_all(&buf[..len])?;
        Ok(len)
    }

    fn flush(&mut self) -> io::Result<()> {
        self.out.flush()
    }
}
