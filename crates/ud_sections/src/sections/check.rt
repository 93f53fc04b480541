//! The check of a line against the open sections and the line before.

ghost use Rattle.std.specs.Prelude.{◌≡◌, ◌==◌, false, IfOk, IsTrue};
ghost use Rattle.ud_model.specs.declared.limits.TheConstants.{MAX_DEPTH};
ghost use Rattle.ud_model.specs.sections.Faults.{keeps_rest};
ghost use Rattle.ud_sections.specs.sections.Checking.{checked_by, is_obfuscated_by, opens_section};
ghost use Rattle.ud_sections.specs.sections.Checking.{misplaced_fault_by};

use crate::sections::SectionFault;
use crate::sections::classify_line::ClassifiedLine;
use crate::sections::open_section::{Action, Enclosing, StackOp};
use ud_model::{MAX_DEPTH, Role, Verdict};

/// The context of a line: what the lines before it decide.
#[derive(Clone, Copy)]
pub(crate) struct LineContext {
    /// The position of the line among the sections.
    pub enclosing: Enclosing,
    /// The number of open sections.
    pub depth: usize,
    /// The previous line was removed.
    pub removed: bool,
}

/// Checks a directive against the open sections, and returns its action.
///
/// # Errors
/// If the directive is faulty, by the first of these cases:
///
/// - It is misplaced.
/// - It opens one section too many.
/// - It spans lines and would have to be edited or removed.
#[inline(always)]
pub(crate) fn check_line(
    before: LineContext,
    classified: ClassifiedLine,
    number: u32,
) -> Result<Action, SectionFault>
    ensures value { result ≡ checked_by before classified number }
    ensures has_space { IfOk result (λ action. IsTrue (opens_section action.change) →
        (before.depth == MAX_DEPTH) ≡ false) }
{
    let Some(action) = before.enclosing.action_for(classified, number) else {
        return Err(misplaced_fault(classified.role, number));
    };
    let opens = matches!(action.change, StackOp::Push(_));
    if opens && before.depth == MAX_DEPTH {
        return Err(SectionFault::TooManyLevels { line: number });
    }
    if is_obfuscated(before.removed, classified, action) {
        return Err(SectionFault::Obfuscated { line: number });
    }
    Ok(action)
}

/// Returns whether the directive spans lines and would have to be edited or removed. `removed`: the
/// line before it was removed.
fn is_obfuscated(removed: bool, classified: ClassifiedLine, action: Action) -> bool
    ensures { result ≡ is_obfuscated_by removed classified action }
{
    classified.spans
        && action.kept
        && (!keeps_rest(action.verdict) || (classified.joins_before && removed))
}

/// Returns whether a directive with this verdict keeps what follows its keyword, joined lines
/// included.
fn keeps_rest(verdict: Verdict) -> bool
    ensures { result ≡ keeps_rest verdict }
{
    match verdict {
        Verdict::Keep | Verdict::ToIf => true,
        Verdict::Remove | Verdict::ToElse | Verdict::ToEndif => false,
    }
}

/// Returns the fault of a misplaced directive. An `#if` never is.
fn misplaced_fault(role: Role, line: u32) -> SectionFault
    ensures { result ≡ misplaced_fault_by role line }
{
    match role {
        Role::ElifGroup => SectionFault::InappropriateElif { line },
        Role::ElseGroup => SectionFault::InappropriateElse { line },
        Role::IfGroup | Role::EndifLine => SectionFault::InappropriateEndif { line },
    }
}
