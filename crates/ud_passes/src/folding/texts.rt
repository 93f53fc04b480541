//! Folds a text, line by line.

ghost use Rattle.std.specs.Prelude.{◌≡◌, ◌<◌, ◌++◌, ℕ, List, [], length, true, IfOk, OnOk, is_some};
ghost use Rattle.ud_simplified.specs.FoldedTexts.{folded_text, folded_lines};
ghost use Rattle.ud_model.specs.aids.ReadAs.{read_as};
ghost use Rattle.ud_model.specs.declared.kind.Mode.{Mode};
ghost use Rattle.ud_model.specs.declared.kind.Mode.TheVariants.{C};
ghost use Rattle.ud_passes.specs.folding.Folding.{Folded};

use crate::folding::logical::{Last, LogicalLine, append_line};
use crate::folding::shown::has_tab;
use crate::walk::{Stretch, Walk};
use std::alloc::{AllocError, Global};
use ud_model::Mode;
use ud_text::LineStore;

/// Returns how many bytes of text lines may be skipped at once: none while a directive goes on.
fn passable_len(begun: Option<Last<'_>>) -> usize
    ensures { is_some begun.entry ≡ true → result ≡ 0 }
{
    match begun {
        Some(_) => 0,
        None => usize::MAX,
    }
}

/// Takes the next lines after the pending ones.
///
/// # Errors
/// Fails if memory runs out.
fn step<'t>(
    walk: &mut Walk<'t>,
    masked: &mut LineStore,
    logical: &mut LogicalLine,
    begun: Option<Last<'t>>,
    out: &mut Vec<u8>,
) -> Result<Option<Last<'t>>, AllocError>
    requires some { 0 < length walk.old.rest.now }
    ensures shorter { length walk.new.rest.now < length walk.old.rest.now }
    ensures folded { IfOk result (λ b. (text start : List ℕ) →
        Folded text start logical.old begun.entry walk.old out.old.items →
        Folded text start logical.new b walk.new out.new.items) }
{
    match walk.next_within(Mode::C, passable_len(begun), masked) {
        Stretch::Texts(bytes) => {
            out.extend_from_slice(bytes)?;
            Ok(None)
        }
        Stretch::TooLong(line) => {
            logical.give_up(begun, out)?;
            append_line(&line, out)?;
            Ok(None)
        }
        Stretch::Fitting(line, scan) => {
            let last = logical.take(begun, &line, &scan, out)?;
            Ok(last)
        }
    }
}

/// Returns a text with each conditional directive on one line.
///
/// `text` may have any length and any bytes. A vertical tab replaces each newline that continues a
/// directive. A directive that wouldn't be read like its lines stays, and so does a text that has a
/// vertical tab. The text is read in C mode.
///
/// (C11 5.1.1.2, phases 2 and 3, and 6.10p5)
///
/// # Errors
/// Fails if memory runs out.
pub fn fold(alloc: Global, text: &[u8]) -> Result<Vec<u8>, AllocError>
    ensures { IfOk result (λ folded. folded.items ≡ folded_text text.now) }
{
    let mut out = Vec::new(alloc);
    if has_tab(text) {
        out.extend_from_slice(text)?;
        return Ok(out);
    }
    let mut masked = LineStore::new(alloc)?;
    let mut walk = Walk::new(text);
    let mut logical = LogicalLine::new(alloc);
    let mut begun = None;
    while !walk.is_at_end() {
        begun = step(&mut walk, &mut masked, &mut logical, begun, &mut out)?;
    }
    logical.end_text(begun, &mut out)?;
    Ok(out)
}
