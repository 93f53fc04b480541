//! The rest of a text, line by line.

ghost use Rattle.std.specs.Prelude.{◌≡◌, ◌+◌, ◌≤◌, ◌<◌, ◌^◌, ◌++◌, List, [], length, IfOk, OnOk};
ghost use Rattle.std.specs.Prelude.{if◌then◌else◌};
ghost use Rattle.ud_model.specs.text.Lines.{NoNewline, text_of};
ghost use Rattle.ud_model.specs.aids.LineViews.{as_line, as_scan};
ghost use Rattle.ud_model.specs.conditions.Table.{Argument};
ghost use Rattle.ud_model.specs.declared.kind.Mode.{Mode};
ghost use Rattle.ud_model.specs.declared.limits.TheConstants.{MAX_LINE_BYTES};
ghost use Rattle.ud_cond.specs.symbols.SymbolTable.{TableRepresents};
ghost use Rattle.ud_cond.specs.CondViews.{as_rules};
ghost use Rattle.ud_passes.specs.pruning.PrunedTexts.{pruned_text, edited_count};
ghost use Rattle.ud_passes.specs.pruning.Passing.{PrunesLine, PrunesOn};

use crate::pruning::lines::LineEditor;
use crate::walk::{Stretch, Walk};
use std::alloc::{AllocError, Global};
use ud_cond::{Rules, Symbols};
use ud_model::{Line, Mode, Scan};
use ud_text::LineStore;

/// A text without the operands of its conditions that the symbols decide.
#[derive(Drop)]
pub struct Pruned {
    /// The text.
    pub text: Vec<u8>,
    /// The number of lines that were edited.
    pub edited: usize,
}

/// Appends the bytes of an edited line, or of the line if it stays.
///
/// # Errors
/// Fails if memory runs out.
fn append_either(
    edited: bool,
    bytes: &[u8],
    line: &Line<'_>,
    out: &mut Vec<u8>,
) -> Result<(), AllocError>
    ensures { OnOk result (out.new.items ≡ out.old.items ++
        (if edited then bytes.now else text_of (as_line line.now))) }
{
    if edited {
        return out.extend_from_slice(bytes);
    }
    out.extend_from_slice(line.body)?;
    out.extend_from_slice(line.ending)
}

/// Appends the rest of a line with this scan. Returns whether it was edited.
///
/// # Errors
/// Fails if memory runs out.
fn append_line(
    editor: &mut LineEditor,
    line: &Line<'_>,
    scan: &Scan<'_>,
    symbols: &Symbols,
    rules: Rules,
    out: &mut Vec<u8>,
) -> Result<bool, AllocError>
    requires fits { length (text_of (as_line line.now)) ≤ MAX_LINE_BYTES }
    requires masked { length scan.now.masked.now ≤ MAX_LINE_BYTES }
    requires one_line { NoNewline line.now.body.now }
    ensures { IfOk result (λ edited. (calls : List Argument) →
        TableRepresents symbols.now calls → PrunesLine calls (as_rules rules)
        (as_line line.now) (as_scan scan.now) edited out.old.items out.new.items) }
{
    let edited = editor.edit(line, scan, symbols, rules)?;
    append_either(edited, editor.bytes.as_slice(), line, out)?;
    Ok(edited)
}

/// Takes the next lines, and appends the rest of them. Returns how many lines were edited so far;
/// `count` is the number before these lines.
///
/// # Errors
/// Fails if memory runs out.
fn step(
    walk: &mut Walk<'_>,
    masked: &mut LineStore,
    editor: &mut LineEditor,
    symbols: &Symbols,
    rules: Rules,
    count: usize,
    out: &mut Vec<u8>,
) -> Result<usize, AllocError>
    requires some { 0 < length walk.old.rest.now }
    requires room { count + length walk.old.rest.now < 2 ^ 64 }
    ensures shorter { length walk.new.rest.now < length walk.old.rest.now }
    ensures room { IfOk result (λ n.
        n + length walk.new.rest.now ≤ count + length walk.old.rest.now) }
    ensures pruned { IfOk result (λ n. (calls : List Argument) → TableRepresents symbols.now calls →
        PrunesOn calls (as_rules rules) count walk.old out.old.items n walk.new out.new.items) }
{
    match walk.next(Mode::C, masked) {
        Stretch::Texts(bytes) => {
            out.extend_from_slice(bytes)?;
            Ok(count)
        }
        Stretch::TooLong(line) => {
            append_either(false, &[], &line, out)?;
            Ok(count)
        }
        Stretch::Fitting(line, scan) => {
            let edited = append_line(editor, &line, &scan, symbols, rules, out)?;
            Ok(count + usize::from(edited))
        }
    }
}

/// Returns a text without the operands of its conditions that the symbols decide.
///
/// `text` may have any length and any bytes. A line over `MAX_LINE_BYTES` stays, and so does a
/// condition that spans lines or isn't understood. Bytes are only removed. The text is read in C
/// mode.
///
/// (C11 6.5.13p3, 6.5.14p3, 6.10.1)
///
/// # Errors
/// Fails if memory runs out.
pub fn prune(
    alloc: Global,
    text: &[u8],
    symbols: &Symbols,
    rules: Rules,
) -> Result<Pruned, AllocError>
    ensures { IfOk result (λ p. (calls : List Argument) → TableRepresents symbols.now calls →
        (p.text.items ≡ pruned_text calls (as_rules rules) text.now) ×
        (p.edited ≡ edited_count calls (as_rules rules) text.now)) }
{
    let mut left = Vec::new(alloc);
    let mut masked = LineStore::new(alloc)?;
    let mut walk = Walk::new(text);
    let mut editor = LineEditor::new(alloc);
    let mut edited = 0;
    while !walk.is_at_end() {
        edited = step(
            &mut walk,
            &mut masked,
            &mut editor,
            symbols,
            rules,
            edited,
            &mut left,
        )?;
    }
    Ok(Pruned { text: left, edited })
}
