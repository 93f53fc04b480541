//! Cutting a text into lines (POSIX XBD 3.206).

ghost use Rattle.std.specs.Prelude.{◌≡◌, ◌+◌, ◌<◌, length};
ghost use Rattle.ud_model.specs.text.Lines.{NoNewline};

use memchr::memchr;
use ud_text::Line;

/// Returns the first line of a nonempty text, with this number, and the text after it.
pub(crate) fn cut_line(text: &[u8], number: u32) -> (Line<'_>, &[u8])
    requires some { 0 < length text.now }
    ensures one_line { NoNewline result.0.body.now }
    ensures parts { length result.0.body.now + length result.0.ending.now + length result.1.now ≡
        length text.now }
    ensures shorter { length result.1.now < length text.now }
{
    let Some(at) = memchr(b'\n', text) else {
        let line = Line {
            body: text,
            ending: b"",
            number,
        };
        return (line, &[]);
    };
    let (before, rest) = (&text[..at], &text[at + 1..]);
    let Some(body) = before.strip_suffix(b"\r") else {
        let line = Line {
            body: before,
            ending: b"\n",
            number,
        };
        return (line, rest);
    };
    let line = Line {
        body,
        ending: b"\r\n",
        number,
    };
    (line, rest)
}
