//! The hunks of a script: its changes, with the lines around them.

ghost use Rattle.std.specs.Prelude.{◌≡◌, ◌+◌, ◌<◌, ◌≤◌, ◌^◌, ◌++◌, OnOk, length, position, drop};
ghost use Rattle.std.specs.Prelude.{MatchOption, IfSome};
ghost use Rattle.std.specs.List.{count_by, flat_map};
ghost use Rattle.ud_passes.specs.diff.Hunks.{is_old, is_new, is_change};
ghost use Rattle.ud_passes.specs.diff.DiffTexts.{signed_text, hunk_text};
ghost use Rattle.ud_passes.specs.diff.Contexts.{AreKept, AreChanges};
ghost use Rattle.ud_passes.specs.diff.Scripts.{signed_lines, hunk_of, AppendsHunks};
ghost use Rattle.ud_passes.specs.diff.Scripts.{between, gap, BeginsWithChange, IsNextHunk};

use crate::diff::line::DiffLine;
use crate::diff::print::{append_line, append_ranges};
use std::alloc::AllocError;

/// The number of kept lines shown around a change.
const CONTEXT: usize = 3;

/// Returns how many of the lines are in the old text.
fn count_old(lines: &[DiffLine<'_>]) -> usize
    ensures { result ≡ count_by (λ l. is_old l.sign) lines.now }
{
    lines.iter().filter(|line| line.is_old()).count()
}

/// Returns how many of the lines are in the new text.
fn count_new(lines: &[DiffLine<'_>]) -> usize
    ensures { result ≡ count_by (λ l. is_new l.sign) lines.now }
{
    lines.iter().filter(|line| line.is_new()).count()
}

/// Returns the position of the first line that is in only one of the texts.
fn first_change(lines: &[DiffLine<'_>]) -> Option<usize>
    ensures { result ≡ position (λ l. is_change l.sign) lines.now }
{
    lines.iter().position(|line| line.is_change())
}

/// Returns the number of lines from this change up to the last change before a longer run of kept
/// lines than two contexts.
fn changes_len(lines: &[DiffLine<'_>]) -> usize
    requires { BeginsWithChange lines.now }
    ensures within { result ≤ length lines.now }
    ensures changed { AreChanges (between 0 result lines.now) }
    ensures later { AreKept (between result (result + gap) lines.now) }
{
    let mut last = 0usize;
    for (at, line) in lines.iter().enumerate() {
        if line.is_change() {
            last = at + 1;
        } else if at - last >= 2 * CONTEXT {
            break;
        }
    }
    last
}

/// Returns where the next hunk begins and ends, from this position on; `None` if no change is left.
#[tactic(auto, using(crate::proofs::HunkLemmas::hunk_steps))]
fn next_hunk(script: &[DiffLine<'_>], from: usize) -> Option<(usize, usize)>
    requires { from ≤ length script.now }
    ensures next { MatchOption result (AreKept (signed_lines (drop from script.now)))
        (λ range. IsNextHunk script.now from range.0 range.1) }
    ensures after { IfSome result (λ range. from ≤ range.0) }
    ensures some { IfSome result (λ range. range.0 < range.1) }
    ensures within { IfSome result (λ range. range.1 ≤ length script.now) }
    ensures fits { IfSome result (λ range. range.1 < 2 ^ 64) }
{
    let rest = &script[from..];
    let first = first_change(rest)?;
    let start = from + first.saturating_sub(CONTEXT);
    let last = from + first + changes_len(&rest[first..]);
    Some((start, script.len().min(last.saturating_add(CONTEXT))))
}

/// Appends the lines of a hunk.
fn append_lines(out: &mut Vec<u8>, lines: &[DiffLine<'_>]) -> Result<(), AllocError>
    ensures { OnOk result (out.new.items ≡
        out.old.items ++ flat_map signed_text (signed_lines lines.now)) }
{
    for line in lines {
        append_line(out, line)?;
    }
    Ok(())
}

/// Appends a hunk that comes after so many lines of both texts.
fn append_hunk(
    out: &mut Vec<u8>,
    old_before: usize,
    new_before: usize,
    lines: &[DiffLine<'_>],
) -> Result<(), AllocError>
    requires old { old_before + length lines.now < 2 ^ 64 }
    requires new { new_before + length lines.now < 2 ^ 64 }
    ensures { OnOk result (out.new.items ≡ out.old.items ++
        hunk_text (hunk_of old_before new_before lines.now)) }
{
    append_ranges(
        out,
        old_before,
        count_old(lines),
        new_before,
        count_new(lines),
    )?;
    append_lines(out, lines)?;
    Ok(())
}

/// Appends the hunks of a script.
pub(crate) fn append_hunks(out: &mut Vec<u8>, script: &[DiffLine<'_>]) -> Result<(), AllocError>
    ensures { OnOk result (AppendsHunks (signed_lines script.now) out.old.items out.new.items) }
{
    let (mut at, mut old_before, mut new_before) = (0usize, 0usize, 0usize);
    while let Some((start, end)) = next_hunk(script, at) {
        old_before += start - at;
        new_before += start - at;
        let hunk = &script[start..end];
        append_hunk(out, old_before, new_before, hunk)?;
        old_before += count_old(hunk);
        new_before += count_new(hunk);
        at = end;
    }
    Ok(())
}
