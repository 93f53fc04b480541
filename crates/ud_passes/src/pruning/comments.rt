//! The comment after an `#else` or `#endif`, read as a condition.

ghost use Rattle.std.specs.Prelude.{◌≡◌, ◌≤◌, ◌++◌, length, map, true, false, IfSome, IfNone, OnOk};
ghost use Rattle.ud_model.specs.text.Lines.{NoNewline};
ghost use Rattle.ud_model.specs.text.Lexemes as lexemes;
ghost use Rattle.ud_model.specs.text.Lexemes.{block_comment, cells_in};
ghost use Rattle.ud_simplified.specs.CommentTexts as spec;
ghost use Rattle.ud_model.specs.declared.limits.TheConstants.{MAX_LINE_BYTES};

use crate::pruning::cells::split_bytes;
use std::alloc::AllocError;
use ud_model::bytes::{are_white, skip_white};
use ud_model::{Line, Mode};
use ud_text::{LineStore, Scanner};

/// Returns how many bytes come before the first `*/`, or before the end.
fn close_at(bytes: &[u8]) -> usize
    ensures { result ≡ spec.close_at bytes.now }
{
    for at in 0..bytes.len() {
        let (_, rest) = split_bytes(bytes, at);
        if rest.starts_with(b"*/") {
            return at;
        }
    }
    bytes.len()
}

/// Returns the position and the length of the comment's text, if one comment is all that follows a
/// keyword.
fn text_place(bytes: &[u8]) -> Option<(usize, usize)>
    ensures some { IfSome result (λ p. (spec.has_lone_comment bytes.now ≡ true) ×
        (p.0 ≡ spec.text_at bytes.now) × (p.1 ≡ spec.text_len bytes.now)) }
    ensures none { IfNone result (spec.has_lone_comment bytes.now ≡ false) }
{
    let comment = skip_white(bytes);
    let is_line = comment.starts_with(b"//");
    if !is_line && !comment.starts_with(b"/*") {
        return None;
    }
    let at = bytes.len().saturating_sub(comment.len()) + 2;
    let (_, rest) = split_bytes(bytes, at);
    let len = if is_line { rest.len() } else { close_at(rest) };
    let (_, back) = split_bytes(rest, len);
    if !are_white(split_bytes(back, 2).1) {
        return None;
    }
    Some((at, len))
}

/// Appends a space for each byte.
///
/// # Errors
/// Fails if memory runs out.
fn append_spaces(shown: &mut Vec<u8>, bytes: &[u8]) -> Result<(), AllocError>
    ensures { OnOk result (shown.new.items ≡
        shown.old.items ++ map lexemes.shown (cells_in block_comment bytes.now)) }
{
    for _byte in bytes {
        shown.push(b' ')?;
    }
    Ok(())
}

/// Appends a space for each byte, and the masked text between the first `at` bytes and those after
/// `len` more. If it leaves a comment open, only spaces are appended.
///
/// # Errors
/// Fails if memory runs out.
fn append_around(shown: &mut Vec<u8>, bytes: &[u8], at: usize, len: usize) -> Result<(), AllocError>
    requires fits { length bytes.now ≤ MAX_LINE_BYTES }
    requires one_line { NoNewline bytes.now }
    ensures { OnOk result (shown.new.items ≡ shown.old.items ++
        map lexemes.shown (spec.cells_around at len bytes.now)) }
{
    let (front, rest) = split_bytes(bytes, at);
    let (text, back) = split_bytes(rest, len);
    let mut masked = LineStore::new(*shown.allocator())?;
    let line = Line {
        body: text,
        ending: &[],
        number: 0,
    };
    let mut scanner = Scanner::bare();
    let scan = scanner.read_into(Mode::C, &line, &mut masked);
    if scan.joins_after {
        return append_spaces(shown, bytes);
    }
    append_spaces(shown, front)?;
    shown.extend_from_slice(scan.masked)?;
    append_spaces(shown, back)
}

/// Appends the bytes after an `#else` or `#endif`, masked as if their comment were a condition.
///
/// # Errors
/// Fails if memory runs out.
pub(crate) fn append_as_condition(shown: &mut Vec<u8>, bytes: &[u8]) -> Result<(), AllocError>
    requires fits { length bytes.now ≤ MAX_LINE_BYTES }
    requires one_line { NoNewline bytes.now }
    ensures { OnOk result (shown.new.items ≡
        shown.old.items ++ map lexemes.shown (spec.comment_cells bytes.now)) }
{
    match text_place(bytes) {
        Some((at, len)) => append_around(shown, bytes, at, len),
        None => append_spaces(shown, bytes),
    }
}
