//! Whether the single line that lines form is read like them.

ghost use Rattle.std.specs.Prelude.{◌≡◌, ◌≤◌, [], length, true, ◌&&◌, IfOk};
ghost use Rattle.ud_model.specs.text.Lines.{Line as TextLine, NoNewline, text_of, is_ending};
ghost use Rattle.ud_model.specs.text.Scanning.{scan_after_run};
ghost use Rattle.ud_model.specs.aids.LineViews.{as_line, as_scan};
ghost use Rattle.ud_model.specs.sections.Directives.{content_of};
ghost use Rattle.ud_simplified.specs.FoldedTexts as spec;
ghost use Rattle.ud_simplified.specs.FoldedTexts.{is_shown_as, tabs_are_beside};
ghost use Rattle.ud_model.specs.declared.limits.TheConstants.{MAX_LINE_BYTES};
ghost use Rattle.ud_passes.specs.folding.LogicalLines.{is_line_shown};

use crate::pruning::has_quote;
use memchr::memchr;
use std::alloc::{AllocError, Global};
use ud_model::{Line, MAX_LINE_BYTES, Mode, Scan};
use ud_sections::directive;
use ud_text::{LineStore, Scanner, line_in};

/// The vertical tab, which represents a newline that continues a directive.
pub(crate) const VERTICAL_TAB: u8 = 11;

/// Returns whether there is a vertical tab among the bytes.
pub(crate) fn has_tab(bytes: &[u8]) -> bool
    ensures { result ≡ spec.has_tab bytes.now }
{
    memchr(VERTICAL_TAB, bytes).is_some()
}

/// Returns whether a line has a directive.
pub(crate) fn is_directive(scan: &Scan<'_>) -> bool
    ensures { result ≡ spec.is_directive (content_of (as_scan scan.now)) }
{
    matches!(directive(scan), Ok(Some(_)))
}

/// Returns whether a byte is white space other than a vertical tab.
fn is_blank(byte: u8) -> bool
    ensures { result ≡ spec.is_blank byte }
{
    matches!(byte, b' ' | b'\t' | 12 | b'\r')
}

/// Returns whether each vertical tab is next to other white space or the line's end.
fn tabs_are_beside(shown: &[u8]) -> bool
    ensures { result ≡ tabs_are_beside true shown.now }
{
    // Other white space precedes the next byte, vertical tabs aside.
    let mut blank = true;
    // A vertical tab before the next byte has no such white space before it.
    let mut owes = false;
    for byte in shown {
        if *byte == VERTICAL_TAB {
            owes = owes || !blank;
        } else {
            blank = is_blank(*byte);
            if owes && !blank {
                return false;
            }
            owes = false;
        }
    }
    true
}

/// Returns whether a line with this scan is a directive that joins no next line, with these masked
/// bytes. They have no quote, and white space next to each vertical tab.
fn is_shown_as(scan: &Scan<'_>, shown: &[u8]) -> bool
    ensures { result ≡ is_shown_as (as_scan scan.now) shown.now }
{
    if scan.joins_after {
        return false;
    }
    if scan.masked != shown {
        return false;
    }
    is_directive(scan) && !has_quote(shown) && tabs_are_beside(shown)
}

/// Returns whether a line, read as the first one of a text, is a directive with these masked bytes.
///
/// # Errors
/// Fails if memory runs out.
fn is_shown(alloc: Global, line: &Line<'_>, shown: &[u8]) -> Result<bool, AllocError>
    requires fits { length line.now.body.now ≤ MAX_LINE_BYTES }
    requires one_line { NoNewline line.now.body.now }
    ensures { IfOk result (λ so.
        so ≡ is_shown_as (scan_after_run [] (as_line line.now)) shown.now) }
{
    let mut masked = LineStore::new(alloc)?;
    let mut scanner = Scanner::bare();
    let scan = scanner.read_into(Mode::C, line, &mut masked);
    Ok(is_shown_as(&scan, shown))
}

/// Returns whether bytes are a line with this ending that fits and, by itself, is shown so.
///
/// # Errors
/// Fails if memory runs out.
pub(crate) fn is_line_shown(
    alloc: Global,
    bytes: &[u8],
    ending: &[u8],
    shown: &[u8],
) -> Result<bool, AllocError>
    ensures { IfOk result (λ so. (k : TextLine) → bytes.now ≡ text_of k → ending.now ≡ k.ending →
        NoNewline k.body → is_ending k.ending ≡ true → so ≡ is_line_shown k shown.now) }
{
    if ending.is_empty() || bytes.len() > MAX_LINE_BYTES {
        return Ok(false);
    }
    let line = line_in(bytes, 1);
    if line.ending != ending {
        return Ok(false);
    }
    Ok(is_shown(alloc, &line, shown)?)
}
