//! The rest of a line.
//!
//! The condition of an `#if` or `#elif` that joins no other line is edited, and so is the comment
//! of an `#else` or `#endif`. The edited line replaces the line only if, by itself, it is read as
//! meant.

ghost use Rattle.std.specs.Prelude.{◌≡◌, ◌≤◌, ◌+◌, List, [], true, false, length, drop, IfOk};
ghost use Rattle.std.specs.Prelude.{ℕ, IfSome, IfNone};
ghost use Rattle.std.specs.List.{list_any};
ghost use Rattle.ud_model.specs.text.Bytes.{is_quote};
ghost use Rattle.ud_model.specs.text.Lines.{Line as TextLine, NoNewline, text_of};
ghost use Rattle.ud_model.specs.text.Splicing.{is_empty};
ghost use Rattle.ud_model.specs.text.Scanning.{scan_after_run};
ghost use Rattle.ud_model.specs.aids.LineViews.{as_line, as_scan};
ghost use Rattle.ud_model.specs.conditions.Table.{Argument};
ghost use Rattle.ud_model.specs.conditions.Conditions.{Rules as SpecRules};
ghost use Rattle.ud_model.specs.sections.Directives.{content_of, directive as has_directive};
ghost use Rattle.ud_simplified.specs.SimplifiedTexts as spec;
ghost use Rattle.ud_simplified.specs.SimplifiedTexts.{keyword_end, line_by};
ghost use Rattle.ud_model.specs.declared.limits.TheConstants.{MAX_LINE_BYTES};
ghost use Rattle.ud_cond.specs.symbols.SymbolTable.{TableRepresents};
ghost use Rattle.ud_cond.specs.CondViews.{as_rules};
ghost use Rattle.ud_sections.specs.directives.ParsedDirectives.{as_directive, content_found};
ghost use Rattle.ud_sections.specs.directives.ParsedDirectives.{IsWithinScan};
ghost use Rattle.ud_passes.specs.pruning.EditedLines.{is_meant, TakesPlace, EditsText, EditsLine};

use crate::pruning::cells::{CellBytes, split_bytes};
use crate::pruning::comments::append_as_condition;
use crate::pruning::conditions::LeftCondition;
use std::alloc::{AllocError, Global};
use ud_cond::{Rules, Symbols};
use ud_model::bytes::are_white;
use ud_model::{Kind, Line, Mode, Scan};
use ud_sections::{Cut, Directive, directive};
use ud_text::{LineStore, Scanner, line_in};

/// An editor of lines, with the last edited line.
#[derive(Drop)]
pub(crate) struct LineEditor {
    condition: LeftCondition,
    /// The bytes of the edited line, with its ending.
    pub(crate) bytes: Vec<u8>,
}

/// Returns whether a text has a quote.
pub(crate) fn has_quote(text: &[u8]) -> bool
    ensures { result ≡ list_any is_quote text.now }
{
    text.iter().any(|byte| matches!(*byte, b'"' | b'\''))
}

/// Returns whether two directives are both `#if`, or both `#elif`, `#else` or `#endif`.
fn same_kind(kind: Kind, other: Kind) -> bool
    ensures { result ≡ spec.same_kind kind other }
{
    match (kind, other) {
        (Kind::If, Kind::If) => true,
        (Kind::Elif, Kind::Elif) => true,
        (Kind::Else, Kind::Else) => true,
        (Kind::Endif, Kind::Endif) => true,
        _ => false,
    }
}

/// Returns whether a directive is an `#else` or an `#endif`.
fn is_closing(kind: Kind) -> bool
    ensures { result ≡ spec.is_closing kind }
{
    matches!(kind, Kind::Else | Kind::Endif)
}

/// Returns the bytes of a line after the keyword of a directive.
fn bytes_after<'a>(line: &Line<'a>, found: &Directive<'_>) -> &'a [u8]
    requires within { keyword_end (as_directive found.now) ≤ MAX_LINE_BYTES }
    requires one_line { NoNewline line.now.body.now }
    ensures bytes { result.now ≡ drop (keyword_end (as_directive found.now)) line.now.body.now }
    ensures one_line { NoNewline result.now }
{
    let (_, bytes) = split_bytes(line.body, found.keyword.at + found.keyword.len);
    bytes
}

/// Returns the directive of a line, if its text may be edited.
fn directive_on<'a>(scan: &Scan<'a>) -> Option<Directive<'a>>
    ensures some { IfSome result (λ d. (content_of (as_scan scan.now) ≡
        has_directive (as_directive d)) ×
        (d.keyword.at + d.keyword.len + length d.after.now ≡ length scan.now.masked.now)) }
    ensures none { IfNone result ((table : List Argument) (rules : SpecRules) (l : TextLine) →
        line_by table rules (as_scan scan.now) l (content_of (as_scan scan.now)) ≡ l) }
{
    match directive(scan) {
        Ok(Some(found)) => {
            if same_kind(found.kind, found.kind) {
                Some(found)
            } else {
                None
            }
        }
        Ok(None) => None,
        Err(_) => None,
    }
}

/// Returns whether a line has a directive of the kind of `found`, and this text that may be edited.
///
/// # Errors
/// Fails if memory runs out.
fn is_directive(
    alloc: Global,
    line: &Line<'_>,
    found: &Directive<'_>,
    now: Result<Option<Directive<'_>>, Cut>,
    text: &[u8],
) -> Result<bool, AllocError>
    requires fits { length line.now.body.now ≤ MAX_LINE_BYTES }
    requires within { (n : ℕ) × (n ≤ MAX_LINE_BYTES) × IsWithinScan now n }
    requires one_line { NoNewline line.now.body.now }
    ensures { IfOk result (λ same. same ≡ spec.has_directive (as_directive found.now) text.now
        (as_line line.now) (content_found now.entry)) }
{
    match now {
        Ok(Some(now)) => {
            if !same_kind(found.kind, now.kind) {
                return Ok(false);
            }
            if !is_closing(found.kind) {
                return Ok(now.after == text);
            }
            if !are_white(found.after) || !are_white(now.after) {
                return Ok(false);
            }
            let mut shown = Vec::new(alloc);
            append_as_condition(&mut shown, bytes_after(line, &now))?;
            Ok(shown.as_slice() == text)
        }
        Ok(None) => Ok(false),
        Err(_) => Ok(false),
    }
}

/// Returns whether a line, read by itself, joins no other line, and has the directive `found` with
/// this text that may be edited.
///
/// # Errors
/// Fails if memory runs out.
fn is_meant(
    alloc: Global,
    line: &Line<'_>,
    found: &Directive<'_>,
    text: &[u8],
) -> Result<bool, AllocError>
    requires fits { length line.now.body.now ≤ MAX_LINE_BYTES }
    requires one_line { NoNewline line.now.body.now }
    ensures { IfOk result (λ meant. meant ≡ is_meant (as_directive found.now) text.now
        (as_line line.now) (scan_after_run [] (as_line line.now))) }
{
    let mut masked = LineStore::new(alloc)?;
    let mut scanner = Scanner::bare();
    let scan = scanner.read_into(Mode::C, line, &mut masked);
    if scan.joins_after {
        return Ok(false);
    }
    is_directive(alloc, line, found, directive(&scan), text)
}

/// Returns whether the bytes of an edited line replace the line: they differ from it, and are read
/// as the directive `found` with this text.
///
/// # Errors
/// Fails if memory runs out.
fn takes_place(
    alloc: Global,
    bytes: &[u8],
    line: &Line<'_>,
    found: &Directive<'_>,
    text: &[u8],
) -> Result<bool, AllocError>
    requires fits { length bytes.now ≤ MAX_LINE_BYTES }
    requires one_line { NoNewline line.now.body.now }
    requires ended { is_empty line.now.ending.now ≡ false }
    ensures { IfOk result (λ edited. TakesPlace (as_line line.now) (as_directive found.now)
        text.now bytes.now edited) }
{
    let edited = line_in(bytes, line.number);
    if edited.ending != line.ending {
        return Ok(false);
    }
    if edited.body == line.body {
        return Ok(false);
    }
    Ok(is_meant(alloc, &edited, found, text)?)
}

impl LineEditor {
    /// Returns an editor.
    pub(crate) fn new(alloc: Global) -> LineEditor
        ensures { result.bytes.items ≡ [] }
    {
        LineEditor {
            condition: LeftCondition::new(alloc),
            bytes: Vec::new(alloc),
        }
    }

    /// Edits a line with this scan. Returns whether `bytes` then has other bytes, which replace the
    /// line.
    ///
    /// # Errors
    /// Fails if memory runs out.
    pub(crate) fn edit(
        &mut self,
        line: &Line<'_>,
        scan: &Scan<'_>,
        symbols: &Symbols,
        rules: Rules,
    ) -> Result<bool, AllocError>
        requires fits { length (text_of (as_line line.now)) ≤ MAX_LINE_BYTES }
        requires masked { length scan.now.masked.now ≤ MAX_LINE_BYTES }
        requires one_line { NoNewline line.now.body.now }
        ensures { IfOk result (λ edited. (calls : List Argument) →
            TableRepresents symbols.now calls → EditsLine calls (as_rules rules)
            (as_line line.now) (as_scan scan.now) edited self.new.bytes.items) }
    {
        if scan.joins_before || scan.joins_after || line.ending.is_empty() {
            return Ok(false);
        }
        let Some(found) = directive_on(scan) else {
            return Ok(false);
        };
        if !is_closing(found.kind) {
            return self.edit_text(line, &found, found.after, symbols, rules);
        }
        let mut shown = Vec::new(*self.bytes.allocator());
        append_as_condition(&mut shown, bytes_after(line, &found))?;
        self.edit_text(line, &found, shown.as_slice(), symbols, rules)
    }

    /// Edits a line with this directive, whose text that may be edited is masked as `shown`.
    /// Returns whether `bytes` then has other bytes, which replace the line.
    ///
    /// # Errors
    /// Fails if memory runs out.
    fn edit_text(
        &mut self,
        line: &Line<'_>,
        found: &Directive<'_>,
        shown: &[u8],
        symbols: &Symbols,
        rules: Rules,
    ) -> Result<bool, AllocError>
        requires fits { length (text_of (as_line line.now)) ≤ MAX_LINE_BYTES }
        requires within { keyword_end (as_directive found.now) ≤ MAX_LINE_BYTES }
        requires masked { length shown.now ≤ MAX_LINE_BYTES }
        requires one_line { NoNewline line.now.body.now }
        requires ended { is_empty line.now.ending.now ≡ false }
        ensures { IfOk result (λ edited. (calls : List Argument) →
            TableRepresents symbols.now calls → EditsText calls (as_rules rules)
            (as_line line.now) (as_directive found.now) shown.now edited self.new.bytes.items) }
    {
        if has_quote(shown) {
            return Ok(false);
        }
        let (front, bytes) = split_bytes(line.body, found.keyword.at + found.keyword.len);
        let text = CellBytes { bytes, shown };
        if !self.condition.find(text, symbols, rules)? {
            return Ok(false);
        }
        let left = &self.condition.text;
        self.bytes.clear();
        self.bytes.extend_from_slice(front)?;
        self.bytes.extend_from_slice(left.bytes.as_slice())?;
        self.bytes.extend_from_slice(line.ending)?;
        Ok(takes_place(
            *self.bytes.allocator(),
            self.bytes.as_slice(),
            line,
            found,
            left.shown.as_slice(),
        )?)
    }
}
