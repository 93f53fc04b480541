//! Texts that `fold` and `prune` leave as they are: no directive goes on to another line, and no
//! line is edited. Most files are such texts, and then nothing has to be copied.

ghost use Rattle.std.specs.Prelude.{◌≡◌, ◌<◌, ◌≤◌, List, [], length, true, IfOk};
ghost use Rattle.ud_model.specs.text.Lines.{NoNewline, text_of};
ghost use Rattle.ud_model.specs.aids.LineViews.{as_line, as_scan};
ghost use Rattle.ud_model.specs.declared.limits.TheConstants.{MAX_LINE_BYTES};
ghost use Rattle.ud_model.specs.declared.kind.Mode.{Mode};
ghost use Rattle.ud_model.specs.conditions.Table.{Argument};
ghost use Rattle.ud_cond.specs.symbols.SymbolTable.{TableRepresents};
ghost use Rattle.ud_cond.specs.CondViews.{as_rules};
ghost use Rattle.ud_passes.specs.UntouchedTexts.{IsUntouched, LeavesLine, StaysOn};

use crate::folding::begins;
use crate::pruning::LineEditor;
use crate::walk::{Stretch, Walk};
use std::alloc::{AllocError, Global};
use ud_cond::{Rules, Symbols};
use ud_model::{Line, Mode, Scan};
use ud_text::LineStore;

/// Returns whether a line with this scan stays.
///
/// # Errors
/// Fails if memory runs out.
fn line_stays(
    editor: &mut LineEditor,
    line: &Line<'_>,
    scan: &Scan<'_>,
    symbols: &Symbols,
    rules: Rules,
) -> Result<bool, AllocError>
    requires fits { length (text_of (as_line line.now)) ≤ MAX_LINE_BYTES }
    requires masked { length scan.now.masked.now ≤ MAX_LINE_BYTES }
    requires one_line { NoNewline line.now.body.now }
    ensures { IfOk result (λ stays. stays ≡ true → (calls : List Argument) →
        TableRepresents symbols.now calls →
        LeavesLine calls (as_rules rules) (as_line line.now) (as_scan scan.now)) }
{
    if begins(scan) {
        return Ok(false);
    }
    let edited = editor.edit(line, scan, symbols, rules)?;
    Ok(!edited)
}

/// Takes the next lines. Returns whether they stay.
///
/// # Errors
/// Fails if memory runs out.
fn step(
    walk: &mut Walk<'_>,
    masked: &mut LineStore,
    editor: &mut LineEditor,
    symbols: &Symbols,
    rules: Rules,
) -> Result<bool, AllocError>
    requires some { 0 < length walk.old.rest.now }
    ensures shorter { length walk.new.rest.now < length walk.old.rest.now }
    ensures stay { IfOk result (λ stay. stay ≡ true → (calls : List Argument) →
        TableRepresents symbols.now calls → StaysOn calls (as_rules rules) walk.old walk.new) }
{
    match walk.next(Mode::C, masked) {
        Stretch::Texts(_) => Ok(true),
        Stretch::TooLong(_) => Ok(true),
        Stretch::Fitting(line, scan) => {
            let stays = line_stays(editor, &line, &scan, symbols, rules)?;
            Ok(stays)
        }
    }
}

/// Returns whether a text is known to be its own folded text, and its own pruned text.
///
/// `text` may have any length and any bytes, and is read in C mode.
///
/// # Errors
/// Fails if memory runs out.
pub fn is_untouched(
    alloc: Global,
    text: &[u8],
    symbols: &Symbols,
    rules: Rules,
) -> Result<bool, AllocError>
    ensures { IfOk result (λ known. known ≡ true → (calls : List Argument) →
        TableRepresents symbols.now calls → IsUntouched calls (as_rules rules) text.now) }
{
    let mut masked = LineStore::new(alloc)?;
    let mut walk = Walk::new(text);
    let mut editor = LineEditor::new(alloc);
    while !walk.is_at_end() {
        if !step(&mut walk, &mut masked, &mut editor, symbols, rules)? {
            return Ok(false);
        }
    }
    Ok(true)
}
