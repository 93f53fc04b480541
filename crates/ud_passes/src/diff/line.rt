//! The lines of a diff.

ghost use Rattle.std.specs.Prelude.{◌≡◌, ◌<◌, ◌∷◌, [], length, MatchOption};
ghost use Rattle.ud_model.specs.text.Lines.{texts_of};

use memchr::memchr;

/// The sign of a line of a diff.
#[derive(Clone, Copy, Debug, PartialEq, Eq)]
pub(crate) enum Sign {
    /// The line is in both texts.
    Kept,
    /// The line is only in the old text.
    Removed,
    /// The line is only in the new text.
    Added,
}

/// A line of a diff, with its ending.
#[derive(Clone, Copy)]
pub(crate) struct DiffLine<'t> {
    pub sign: Sign,
    pub bytes: &'t [u8],
}

impl DiffLine<'_> {
    ghost use Rattle.ud_passes.specs.diff.Hunks.{is_old, is_new, is_change};

    /// Returns whether the line is in the old text.
    pub(crate) fn is_old(&self) -> bool
        ensures { result ≡ is_old self.now.sign }
    {
        matches!(self.sign, Sign::Kept | Sign::Removed)
    }

    /// Returns whether the line is in the new text.
    pub(crate) fn is_new(&self) -> bool
        ensures { result ≡ is_new self.now.sign }
    {
        matches!(self.sign, Sign::Kept | Sign::Added)
    }

    /// Returns whether the line is in only one of the texts.
    pub(crate) fn is_change(&self) -> bool
        ensures { result ≡ is_change self.now.sign }
    {
        matches!(self.sign, Sign::Removed | Sign::Added)
    }
}

/// Returns the first line of a text with its newline, and the rest; `None` if the text is empty.
pub(crate) fn first_line(text: &[u8]) -> Option<(&[u8], &[u8])>
    ensures lines { MatchOption result (text.now ≡ [])
        (λ parts. texts_of text.now ≡ parts.0.now ∷ texts_of parts.1.now) }
    ensures shorter { MatchOption result (length text.now ≡ 0)
        (λ parts. length parts.1.now < length text.now) }
{
    if text.is_empty() {
        return None;
    }
    let len = match memchr(b'\n', text) {
        Some(at) => at + 1,
        None => text.len(),
    };
    let (line, rest) = text.split_at(len);
    Some((line, rest))
}
