//! A line of a text.

ghost use Rattle.std.specs.Prelude.{IsTrue};
ghost use Rattle.ud_model.specs.text.Lines.{is_ending};

/// A line of a text: the bytes of its body, then those of its ending (POSIX XBD 3.206).
#[derive(Clone, Copy, Debug, PartialEq, Eq)]
pub struct Line<'a> {
    /// The bytes of the line without its ending. A carriage return that no newline follows belongs
    /// to the body.
    pub body: &'a [u8],
    /// `\r\n` or `\n`; empty for a last line without its newline.
    pub ending: &'a [u8],
    /// The line's number in its text, from 1.
    pub number: u32,
    /// `ending` is one of these three.
    pub ghost ended: { IsTrue (is_ending ending.now) },
}
