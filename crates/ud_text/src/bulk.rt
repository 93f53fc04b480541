//! Skips many whole text lines at once in C mode.
//!
//! The bytes are read from one significant byte to the next: `/`, a quote, a backslash or `#`. At
//! anything unusual, reading stops at the beginning of that line. So each way to continue is a step
//! of its own, and a step may stop when in doubt.
//!
//! The fast path reads most bytes, but doesn't always know the line where it stops. Then the steps
//! below read the bytes again, keeping track of the last line at each comment. A step that stops
//! returns `Err` with the beginning of its line.
//!
//! A new kind of lexeme needs a function in lexeme_lengths.rt and its lemma.

ghost use Rattle.std.specs.Prelude.{◌≡◌, ◌≤◌, ◌<◌, ◌+◌, [], ◌∷◌, length, take, drop, true, IfOk};
ghost use Rattle.std.specs.Prelude.{IfErr};
ghost use Rattle.ud_model.specs.text.Bytes.{slash, star, number_sign};
ghost use Rattle.ud_text.specs.bulk.BulkStates.{BulkState, block_state, can_start};
ghost use Rattle.ud_text.specs.bulk.Blocks.{IsBlock};
ghost use Rattle.ud_text.specs.bulk.BulkLexemes.{NoStarPair, IsSplice};
ghost use Rattle.ud_text.specs.bulk.Progress.{ReadTo, bulk_state_of, InOrder, ReadBy, SkippedBy};
ghost use Rattle.ud_text.specs.bulk.Progress.{InBlock, LeavesBlock, ReadsOnOrStops};
ghost use Rattle.ud_text.specs.scan.LexerViews.{lex_state_of};

use crate::scan::lexer::{LexState, Lexer};
use crate::searching::last_line_start;
use blocks::{Block, next_significant, no_block};
use fast_path::find_star_pair;
use hash_sign::{is_line_white_after, other_word_len};
use lexeme_lengths::{lexeme_len, line_comment_len, splice_len};

mod blocks;
mod fast_path;
pub(crate) mod hash_sign;
mod lexeme_lengths;
pub(crate) mod plain;

/// The beginning of a line.
#[derive(Clone, Copy)]
pub(crate) struct LineStart {
    /// The position of the line's first byte. All lines before it are text.
    pub(crate) at: usize,
    /// The lexer at that position.
    pub(crate) lexer: Lexer,
}

/// The progress of a skip. The bytes before `at` are read, and `at` lies outside comments and
/// literals.
#[derive(Clone, Copy)]
struct Progress {
    /// The beginning of a line. Each line begun after it begins outside comments.
    line: LineStart,
    /// A position from which on no comment begins.
    base: usize,
    /// At `base` the logical line is white so far.
    begins: bool,
    /// The position up to which the bytes are read.
    at: usize,
}

/// Returns the last line that begins at or before `at`. Each line after `line` begins a logical
/// line outside comments.
fn last_line(lines: &[u8], line: LineStart, at: usize) -> LineStart
    requires order { line.at ≤ at }
    requires within { at ≤ length lines.now }
    ensures bound { result.at ≤ at }
    ensures read { (start : BulkState) → (now : BulkState) →
        ReadTo start lines.now line.at (bulk_state_of line.lexer) at now →
        ReadTo start lines.now result.at (bulk_state_of result.lexer) at now }
{
    let begin = last_line_start(&lines[line.at..at]);
    if begin == 0 {
        line
    } else {
        LineStart {
            at: line.at + begin,
            lexer: Lexer {
                state: LexState::Text,
                white: true,
            },
        }
    }
}

/// Returns the last line that begins at most `count` bytes after `at`, a position in a block
/// comment. `white`: the logical line is white before the comment.
fn last_line_in_block(
    lines: &[u8],
    line: LineStart,
    at: usize,
    white: bool,
    count: usize,
) -> LineStart
    requires order { line.at ≤ at }
    requires within { at + count ≤ length lines.now }
    requires inside { NoStarPair (take count (drop at lines.now)) }
    ensures bound { result.at ≤ at + count }
    ensures read { (start : BulkState) →
        ReadTo start lines.now line.at (bulk_state_of line.lexer) at (block_state white) →
        InBlock start lines.now result (at + count) white }
{
    let begin = last_line_start(&lines[at..at + count]);
    if begin == 0 {
        line
    } else {
        LineStart {
            at: at + begin,
            lexer: Lexer {
                state: LexState::Block,
                white,
            },
        }
    }
}

/// Skips the rest of the block comment in which `at` lies. Stops if `lines` doesn't close the
/// comment, or if a splice may separate its star and slash.
fn skip_to_block_end(
    lines: &[u8],
    line: LineStart,
    at: usize,
    white: bool,
) -> Result<Progress, LineStart>
    requires order { line.at ≤ at }
    requires within { at ≤ length lines.now }
    ensures further { IfOk result (λ q. InOrder q lines.now × (at < q.at)) }
    ensures bound { IfErr result (λ stop. stop.at ≤ length lines.now) }
    ensures read { LeavesBlock lines.now line at white result }
{
    let (pair, closes, _) = find_star_pair(lines, no_block(lines), at);
    let last = last_line_in_block(lines, line, at, white, pair - at);
    if closes {
        return Ok(Progress {
            line: last,
            base: pair + 2,
            begins: white,
            at: pair + 2,
        });
    }
    Err(last)
}

/// Skips a block comment.
fn block_step(lines: &[u8], p: Progress) -> Result<Progress, LineStart>
    requires order { InOrder p lines.now }
    requires some { 2 ≤ length (drop p.at lines.now) }
    requires first { take 2 (drop p.at lines.now) ≡ slash ∷ star ∷ [] }
    ensures further { IfOk result (λ q. InOrder q lines.now × (p.at < q.at)) }
    ensures bound { IfErr result (λ stop. stop.at ≤ length lines.now) }
    ensures read { ReadsOnOrStops lines.now p result }
{
    let white = is_line_white_after(&lines[p.base..p.at], p.begins);
    match skip_to_block_end(lines, p.line, p.at + 2, white) {
        Ok(q) => Ok(q),
        Err(stop) if stop.at > p.at => Err(stop),
        Err(_) => Err(last_line(lines, p.line, p.at)),
    }
}

/// Skips a line comment with its newline.
fn comment_step(lines: &[u8], p: Progress) -> Result<Progress, LineStart>
    requires order { InOrder p lines.now }
    requires some { 2 ≤ length (drop p.at lines.now) }
    requires first { take 2 (drop p.at lines.now) ≡ slash ∷ slash ∷ [] }
    ensures further { IfOk result (λ q. InOrder q lines.now × (p.at < q.at)) }
    ensures bound { IfErr result (λ stop. stop.at ≤ length lines.now) }
    ensures read { ReadsOnOrStops lines.now p result }
{
    match line_comment_len(&lines[p.at..]) {
        None => Err(last_line(lines, p.line, p.at)),
        Some(count) => Ok(Progress {
            line: p.line,
            base: p.at + count,
            begins: true,
            at: p.at + count,
        }),
    }
}

/// Skips a `#` that belongs to no directive: a word that is no keyword follows, or the logical line
/// isn't white before it.
fn hash_step(lines: &[u8], p: Progress) -> Result<Progress, LineStart>
    requires order { InOrder p lines.now }
    requires some { 1 ≤ length (drop p.at lines.now) }
    requires first { take 1 (drop p.at lines.now) ≡ number_sign ∷ [] }
    ensures further { IfOk result (λ q. InOrder q lines.now × (p.at < q.at)) }
    ensures bound { IfErr result (λ stop. stop.at ≤ length lines.now) }
    ensures read { ReadsOnOrStops lines.now p result }
{
    let after = p.at + 1;
    if let Some(count) = other_word_len(&lines[after..]) {
        let at = after + count;
        return Ok(Progress { at, ..p });
    }
    let before = &lines[p.base..p.at];
    if is_line_white_after(before, p.begins) {
        return Err(last_line(lines, p.line, p.at));
    }
    Ok(Progress { at: after, ..p })
}

/// Skips what a slash, a backslash or a quote begins.
fn text_step(lines: &[u8], p: Progress) -> Result<Progress, LineStart>
    requires order { InOrder p lines.now }
    requires some { p.at < length lines.now }
    ensures further { IfOk result (λ q. InOrder q lines.now × (p.at < q.at)) }
    ensures bound { IfErr result (λ stop. stop.at ≤ length lines.now) }
    ensures read { ReadsOnOrStops lines.now p result }
{
    match lexeme_len(&lines[p.at..]) {
        None => Err(last_line(lines, p.line, p.at)),
        Some(count) => Ok(Progress {
            at: p.at + count,
            ..p
        }),
    }
}

/// Skips a splice of `count` bytes: the next line continues the logical line. Stops if the logical
/// line is still white.
fn splice_step(lines: &[u8], p: Progress, count: usize) -> Result<Progress, LineStart>
    requires order { InOrder p lines.now }
    requires some { (0 < count) × (count ≤ length (drop p.at lines.now)) }
    requires splice { IsSplice (take count (drop p.at lines.now)) }
    ensures further { IfOk result (λ q. InOrder q lines.now × (p.at < q.at)) }
    ensures bound { IfErr result (λ stop. stop.at ≤ length lines.now) }
    ensures read { ReadsOnOrStops lines.now p result }
{
    if is_line_white_after(&lines[p.base..p.at], p.begins) {
        return Err(last_line(lines, p.line, p.at));
    }
    let at = p.at + count;
    let state = LexState::Text;
    let white = false;
    let lexer = Lexer { state, white };
    Ok(Progress {
        line: LineStart { at, lexer },
        base: at,
        begins: false,
        at,
    })
}

/// Skips what a significant byte begins.
fn significant_step(lines: &[u8], p: Progress) -> Result<Progress, LineStart>
    requires order { InOrder p lines.now }
    requires some { p.at < length lines.now }
    ensures further { IfOk result (λ q. InOrder q lines.now × (p.at < q.at)) }
    ensures bound { IfErr result (λ stop. stop.at ≤ length lines.now) }
    ensures read { ReadsOnOrStops lines.now p result }
{
    let rest = &lines[p.at..];
    if rest.starts_with(b"#") {
        hash_step(lines, p)
    } else if rest.starts_with(b"/*") {
        block_step(lines, p)
    } else if rest.starts_with(b"//") {
        comment_step(lines, p)
    } else if let Some(count) = splice_len(rest) {
        splice_step(lines, p, count)
    } else {
        text_step(lines, p)
    }
}

/// Skips plain text, up to the next significant byte.
#[inline(always)]
fn plain_step(lines: &[u8], block: Block, p: Progress) -> (Block, Progress)
    requires order { InOrder p lines.now }
    requires block { IsBlock block lines.now }
    ensures block { IsBlock result.0 lines.now }
    ensures order { InOrder result.1 lines.now }
    ensures further { p.at ≤ result.1.at }
    ensures read { (start : BulkState) → ReadBy start lines.now p →
        ReadBy start lines.now result.1 }
{
    let (at, block) = next_significant(lines, block, p.at);
    (block, Progress { at, ..p })
}

/// Skips text lines from `begun` on. Returns the beginning of the line where the skip stops.
fn skip_text_from(lines: &[u8], begun: Progress) -> LineStart
    requires order { InOrder begun lines.now }
    ensures bound { result.at ≤ length lines.now }
    ensures skipped { (start : BulkState) → ReadBy start lines.now begun →
        SkippedBy start lines.now result }
{
    let (mut block, mut p) = plain_step(lines, no_block(lines), begun);
    while p.at < lines.len() {
        match significant_step(lines, p) {
            Ok(next) => {
                let (later, further) = plain_step(lines, block, next);
                block = later;
                p = further;
            }
            Err(stop) => {
                return stop;
            }
        }
    }
    last_line(lines, p.line, p.at)
}

/// Skips text lines as `fast_path::skip_text_lines` does, and always returns the beginning of a
/// line.
fn skip_again(lexer: Lexer, lines: &[u8]) -> LineStart
    requires starts { can_start (lex_state_of lexer.state) ≡ true }
    ensures bound { result.at ≤ length lines.now }
    ensures skipped { SkippedBy (bulk_state_of lexer) lines.now result }
{
    let line = LineStart { at: 0, lexer };
    match lexer.state {
        LexState::Text => {
            let begun = Progress {
                line,
                base: 0,
                begins: lexer.white,
                at: 0,
            };
            skip_text_from(lines, begun)
        }
        LexState::Block => match skip_to_block_end(lines, line, 0, lexer.white) {
            Ok(begun) => skip_text_from(lines, begun),
            Err(stop) => stop,
        },
        _ => line,
    }
}

/// Skips text lines, from the state of `lexer` on. Returns the beginning of the first line that
/// isn't skipped.
pub(crate) fn skip_text_lines(lexer: Lexer, lines: &[u8]) -> LineStart
    requires starts { can_start (lex_state_of lexer.state) ≡ true }
    ensures bound { result.at ≤ length lines.now }
    ensures skipped { SkippedBy (bulk_state_of lexer) lines.now result }
{
    match fast_path::skip_text_lines(lexer, lines) {
        Some(line) => line,
        None => skip_again(lexer, lines),
    }
}
