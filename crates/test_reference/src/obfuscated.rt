//! Directives that span lines and would have to be changed.

use crate::classify_line::ClassifiedLine;
use crate::pruning::Mark;
use ud_model::Verdict;

/// Returns the line of the first directive that spans lines and would have to be changed.
pub(crate) fn first_obfuscated(lines_read: &[ClassifiedLine<'_>], marks: &[Mark]) -> Option<u32> {
    let mut removed = false;
    for (line_read, mark) in lines_read.iter().zip(marks) {
        if is_obfuscated(line_read, *mark, removed) {
            return Some(line_read.line.number);
        }
        removed = mark.verdict.is_removed();
    }
    None
}

/// Returns whether a line is such a directive. `removed`: the line before it is removed.
fn is_obfuscated(line_read: &ClassifiedLine<'_>, mark: Mark, removed: bool) -> bool {
    let stays = match mark.verdict {
        Verdict::Keep | Verdict::ToIf => !(line_read.joins_before && removed),
        Verdict::Remove | Verdict::ToElse | Verdict::ToEndif => false,
    };
    line_read.role.is_some() && line_read.spans && mark.kept && !stays
}
