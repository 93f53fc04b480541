//! A logical line that begins with a directive, built line by line.

ghost use Rattle.std.specs.Prelude.{◌≡◌, ◌∷◌, ◌++◌, ℕ, List, [], IfOk, OnOk, Some};
ghost use Rattle.ud_model.specs.text.Lines.{NoNewline, text_of};
ghost use Rattle.ud_model.specs.text.Scans.{Reading};
ghost use Rattle.ud_model.specs.aids.LineViews.{as_line, as_scan};
ghost use Rattle.ud_simplified.specs.FoldedTexts as spec;
ghost use Rattle.ud_simplified.specs.FoldedTexts.{folded_bytes};
ghost use Rattle.ud_passes.specs.folding.LogicalLines.{begins, plain_lines, c_reading, IsGroup};
ghost use Rattle.ud_passes.specs.folding.LogicalLines.{BeginsLine, AddsLine, IsLast, IsLogical};
ghost use Rattle.ud_passes.specs.folding.LogicalLines.{HasItsSplice};
ghost use Rattle.ud_passes.specs.folding.Folding.{rest_from, FoldsReading, FoldsLine};

use crate::folding::shown::{VERTICAL_TAB, is_directive, is_line_shown};
use std::alloc::{AllocError, Global};
use ud_model::{CommentAt, Line, Scan};

/// The last line of a logical line that may go on.
#[derive(Clone, Copy)]
pub(crate) struct Last<'t> {
    line: Line<'t>,
    /// The comment left open at its end, if any.
    comment: CommentAt,
    /// It ends in a backslash that deletes its ending.
    spliced: bool,
}

/// The bytes of a logical line.
#[derive(Drop)]
pub(crate) struct LogicalLine {
    /// The bytes of its lines.
    plain: Vec<u8>,
    /// The body of the line that they form, up to the last one.
    body: Vec<u8>,
    /// The masked lines.
    shown: Vec<u8>,
}

/// Returns whether a line begins a logical line of several lines, with a directive.
pub(crate) fn begins(scan: &Scan<'_>) -> bool
    ensures { result ≡ begins (as_scan scan.now) }
{
    !scan.joins_before && scan.joins_after && is_directive(scan)
}

/// Returns a line with this scan, as the last line so far.
fn last_line<'t>(line: &Line<'t>, scan: &Scan<'_>) -> Last<'t>
    ensures { result ≡ record {
      line = line.now;
      comment = scan.now.comment;
      spliced = scan.now.spliced;
    } }
{
    Last {
        line: *line,
        comment: scan.comment,
        spliced: scan.spliced,
    }
}

/// Returns the bytes of a line that stay before the vertical tab that replaces its newline.
fn kept_body<'t>(last: &Last<'t>) -> &'t [u8]
    ensures { (r : Reading) → IsLast last.now r → result.now ++ 11 ∷ [] ≡ spec.continued_part r }
{
    if last.spliced && matches!(last.comment, CommentAt::Outside) {
        let body = last.line.body;
        return body.split_at(body.len().saturating_sub(1)).0;
    }
    last.line.body
}

/// Returns the masked vertical tab after a line, with a backslash before it that stays.
fn masked_break(last: &Last<'_>) -> &'static [u8]
    ensures { (r : Reading) → IsLast last.now r → result.now ≡ spec.shown_break r.scan }
{
    if matches!(last.comment, CommentAt::Outside) {
        return b"\x0b";
    }
    if last.spliced { b"  " } else { b" " }
}

/// Appends a line.
///
/// # Errors
/// Fails if memory runs out.
pub(crate) fn append_line(line: &Line<'_>, out: &mut Vec<u8>) -> Result<(), AllocError>
    ensures { OnOk result (out.new.items ≡ out.old.items ++ text_of (as_line line.now)) }
{
    out.extend_from_slice(line.body)?;
    out.extend_from_slice(line.ending)
}

impl LogicalLine {
    /// Returns a logical line without bytes.
    pub(crate) fn new(alloc: Global) -> LogicalLine
        ensures plain { result.plain.items ≡ [] }
        ensures body { result.body.items ≡ [] }
        ensures shown { result.shown.items ≡ [] }
    {
        LogicalLine {
            plain: Vec::new(alloc),
            body: Vec::new(alloc),
            shown: Vec::new(alloc),
        }
    }

    /// Begins with a line.
    ///
    /// # Errors
    /// Fails if memory runs out.
    fn begin<'t>(&mut self, line: &Line<'t>, scan: &Scan<'_>) -> Result<Last<'t>, AllocError>
        requires one_line { NoNewline line.now.body.now }
        ensures { IfOk result (BeginsLine line.now scan.now self.new) }
    {
        self.plain.clear();
        self.body.clear();
        self.shown.clear();
        append_line(line, &mut self.plain)?;
        self.shown.extend_from_slice(scan.masked)?;
        Ok(last_line(line, scan))
    }

    /// Adds a line that continues the last one, and has the same ending.
    ///
    /// # Errors
    /// Fails if memory runs out.
    fn add<'t>(
        &mut self,
        last: &Last<'_>,
        line: &Line<'t>,
        scan: &Scan<'_>,
    ) -> Result<Last<'t>, AllocError>
        requires one_line { NoNewline line.now.body.now }
        ensures { IfOk result (AddsLine line.now scan.now self.old last.now self.new) }
    {
        append_line(line, &mut self.plain)?;
        self.body.extend_from_slice(kept_body(last))?;
        self.body.push(VERTICAL_TAB)?;
        self.shown.extend_from_slice(masked_break(last))?;
        self.shown.extend_from_slice(scan.masked)?;
        Ok(last_line(line, scan))
    }

    /// Appends the lines, as one line if that is read like them.
    ///
    /// # Errors
    /// Fails if memory runs out.
    fn end(&mut self, last: &Last<'_>, out: &mut Vec<u8>) -> Result<(), AllocError>
        ensures { OnOk result ((group : List Reading) → IsLogical self.old last.now group →
            out.new.items ≡ out.old.items ++ folded_bytes group) }
    {
        let line = last.line;
        append_line(&line, &mut self.body)?;
        let alloc = *self.body.allocator();
        let body = self.body.as_slice();
        let is_read = is_line_shown(alloc, body, line.ending, self.shown.as_slice())?;
        if is_read {
            out.extend_from_slice(self.body.as_slice())?;
        } else {
            out.extend_from_slice(self.plain.as_slice())?;
        }
        Ok(())
    }

    /// Appends the pending lines, if any, as they are.
    ///
    /// # Errors
    /// Fails if memory runs out.
    pub(crate) fn give_up(
        &self,
        begun: Option<Last<'_>>,
        out: &mut Vec<u8>,
    ) -> Result<(), AllocError>
        ensures { OnOk result ((group : List Reading) → IsGroup self.now begun.entry group →
            out.new.items ≡ out.old.items ++ plain_lines group) }
    {
        if begun.is_some() {
            return out.extend_from_slice(self.plain.as_slice());
        }
        Ok(())
    }

    /// Appends the lines pending at the end of the text, if any.
    ///
    /// # Errors
    /// Fails if memory runs out.
    pub(crate) fn end_text(
        &mut self,
        begun: Option<Last<'_>>,
        out: &mut Vec<u8>,
    ) -> Result<(), AllocError>
        ensures { OnOk result ((group : List Reading) → IsGroup self.old begun.entry group →
            out.new.items ≡ out.old.items ++ rest_from group []) }
    {
        match begun {
            Some(last) => self.end(&last, out),
            None => Ok(()),
        }
    }

    /// Takes a line that continues no directive: begins one with it, or appends it.
    ///
    /// # Errors
    /// Fails if memory runs out.
    fn take_first<'t>(
        &mut self,
        line: &Line<'t>,
        scan: &Scan<'_>,
        out: &mut Vec<u8>,
    ) -> Result<Option<Last<'t>>, AllocError>
        requires one_line { NoNewline line.now.body.now }
        ensures { IfOk result (λ b. (n : ℕ) → HasItsSplice line.now scan.now →
            FoldsReading (c_reading line.now scan.now n) [] out.old.items self.new b
            out.new.items) }
    {
        if begins(scan) {
            let last = self.begin(line, scan)?;
            return Ok(Some(last));
        }
        append_line(line, out)?;
        Ok(None)
    }

    /// Takes a line that continues the last one.
    ///
    /// # Errors
    /// Fails if memory runs out.
    fn take_next<'t>(
        &mut self,
        last: &Last<'_>,
        line: &Line<'t>,
        scan: &Scan<'_>,
        out: &mut Vec<u8>,
    ) -> Result<Option<Last<'t>>, AllocError>
        requires one_line { NoNewline line.now.body.now }
        ensures { IfOk result (λ b. FoldsLine line.now scan.now self.old (Some last.now)
            out.old.items self.new b out.new.items) }
    {
        if line.ending != last.line.ending {
            out.extend_from_slice(self.plain.as_slice())?;
            append_line(line, out)?;
            return Ok(None);
        }
        let next = self.add(last, line, scan)?;
        if scan.joins_after {
            return Ok(Some(next));
        }
        self.end(&next, out)?;
        Ok(None)
    }

    /// Takes a line that fits, after the pending lines.
    ///
    /// # Errors
    /// Fails if memory runs out.
    pub(crate) fn take<'t>(
        &mut self,
        begun: Option<Last<'t>>,
        line: &Line<'t>,
        scan: &Scan<'_>,
        out: &mut Vec<u8>,
    ) -> Result<Option<Last<'t>>, AllocError>
        requires one_line { NoNewline line.now.body.now }
        ensures { IfOk result (λ b. FoldsLine line.now scan.now self.old begun.entry
            out.old.items self.new b out.new.items) }
    {
        match begun {
            Some(last) => self.take_next(&last, line, scan, out),
            None => self.take_first(line, scan, out),
        }
    }
}
