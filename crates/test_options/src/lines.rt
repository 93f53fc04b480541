//! Lines of a text, and what may be printed of them.

use std::alloc::{AllocError, Global};

/// Returns the lines of a text, each with its newline, which the last one may lack.
pub(crate) fn lines_of<'a>(alloc: Global, text: &'a [u8]) -> Result<Vec<&'a [u8]>, AllocError> {
    let mut lines = Vec::new(alloc);
    for line in text.split_inclusive(|byte| *byte == b'\n') {
        lines.push(line)?;
    }
    Ok(lines)
}

/// Returns the ending of a line: a newline with the carriage return before it, if there is one.
pub(crate) fn ending_of(line: &[u8]) -> &[u8] {
    if line.ends_with(b"\r\n") {
        b"\r\n"
    } else if line.ends_with(b"\n") {
        b"\n"
    } else {
        b""
    }
}

/// The next bytes of a line and of its edited form, after the bytes that they share: `#elif` may
/// become `#if`, `#else` or `#endif`, and `#else` may become `#endif`.
const EDITS: [(&[u8], &[u8]); 3] = [(b"elif", b"if"), (b"if", b"se"), (b"l", b"ndif")];

/// Returns whether `printed` may be an edited form of the directive `line`.
pub(crate) fn may_be_edited(line: &[u8], printed: &[u8]) -> bool {
    let mut has_sign = false;
    for (at, (byte, other)) in line.iter().zip(printed).enumerate() {
        if byte != other {
            return has_sign
                && goes_on_edited(rest_of(line, at), rest_of(printed, at))
                && ending_of(line) == ending_of(printed);
        }
        has_sign = has_sign || *byte == b'#';
    }
    false
}

/// Returns whether some edit goes on in this way.
fn goes_on_edited(line: &[u8], printed: &[u8]) -> bool {
    EDITS.iter().any(|(from, to)| line.starts_with(from) && printed.starts_with(to))
}

/// Returns the bytes from a place on.
fn rest_of(line: &[u8], at: usize) -> &[u8] {
    &line[at.min(line.len())..]
}
