//! Skips many whole text lines with a single search: for the next significant byte.
//!
//! The end of a block comment is found by the same search, as a slash after a star. So a comment
//! costs no search of its own, and its white space and its line aren't looked up. Only a stop on a
//! line where a comment ends would need them. The result is then `None`, and `skip_again` of
//! bulk.rt reads the bytes again.
//!
//! After a quote, the rest of the line is usually read at once, whatever literals it has.
//!
//! A new kind of lexeme is a step here and one in bulk.rt.
//!
//! Rejected: keeping the line at each comment, whose newlines would have to be searched; stopping
//! at lines with one quote; looking back for quotes at each comment.

ghost use Rattle.std.specs.Prelude.{◌≡◌, ◌≤◌, ◌<◌, ◌+◌, ◌-◌, [], ◌∷◌, length, take, drop};
ghost use Rattle.std.specs.Prelude.{slice_index, true, false, IfSome};
ghost use Rattle.ud_model.specs.text.Bytes.{slash, star, number_sign, is_quote};
ghost use Rattle.ud_text.specs.bulk.BulkStates.{BulkState, can_start};
ghost use Rattle.ud_text.specs.bulk.Blocks.{IsBlock};
ghost use Rattle.ud_text.specs.bulk.BulkLexemes.{IsSplice, NoStarPair};
ghost use Rattle.ud_text.specs.bulk.Progress.{SkippedBy, bulk_state_of};
ghost use Rattle.ud_text.specs.bulk.Reaching.{Reached, InReach, GoesOn};
ghost use Rattle.ud_text.specs.scan.LexerViews.{lex_state_of};

use crate::bulk::LineStart;
use crate::bulk::blocks::{Block, next_significant, no_block};
use crate::bulk::hash_sign::{is_line_white_after, other_word_len};
use crate::bulk::lexeme_lengths::{
    is_quote, lexeme_len, line_comment_len, literal_len, quoted_line_len, splice_len,
};
use crate::scan::lexer::{LexState, Lexer};
use crate::searching::{is_star_pair, last_line_start};

/// For this many bytes after a splice, literals are read one at a time, as the line often ends in a
/// splice too.
const SPLICED_BYTES: usize = 64;

/// A position that a skip has reached. The bytes before `at` are read, and `at` lies outside
/// comments and literals.
#[derive(Clone, Copy)]
struct Reach {
    /// A position from which on no comment begins.
    base: usize,
    /// A line begins at `base`. If not, a block comment ends there.
    at_line_start: bool,
    /// The logical line is white at `base`, if a line begins there.
    begins: bool,
    /// The position up to which the bytes are read.
    at: usize,
    /// Before this position literals are read one at a time. It limits what a line costs, and means
    /// nothing for the bytes.
    searched: usize,
}

/// Returns the last line that begins at or before `p.at`; `None` if a block comment ends on it.
fn last_line(lines: &[u8], p: Reach) -> Option<LineStart>
    requires order { InReach p lines.now }
    ensures bound { IfSome result (λ line. line.at ≤ length lines.now) }
    ensures read { (start : BulkState) → Reached start lines.now p →
        IfSome result (λ line. SkippedBy start lines.now line) }
{
    let begin = last_line_start(&lines[p.base..p.at]);
    if begin > 0 {
        let lexer = Lexer {
            state: LexState::Text,
            white: true,
        };
        return Some(LineStart {
            at: p.base + begin,
            lexer,
        });
    }
    if !p.at_line_start {
        return None;
    }
    let lexer = Lexer {
        state: LexState::Text,
        white: p.begins,
    };
    Some(LineStart { at: p.base, lexer })
}

/// Returns the position of the first star pair from `at` on, whether it closes a block comment, and
/// its block. The position is `lines.len()` if there is none. `block` is the one found before.
///
/// A star before a slash closes a block comment. A star before a backslash may do so, since a
/// splice may stand between star and slash (C11 6.4.9).
#[inline(always)]
pub(crate) fn find_star_pair(lines: &[u8], block: Block, at: usize) -> (usize, bool, Block)
    requires within { at ≤ length lines.now }
    requires block { IsBlock block lines.now }
    ensures block { IsBlock result.2 lines.now }
    ensures order { (at ≤ result.0) × (result.0 ≤ length lines.now) }
    ensures none { NoStarPair (take (result.0 - at) (drop at lines.now)) }
    ensures fits { result.1 ≡ true → result.0 + 2 ≤ length lines.now }
    ensures closes { result.1 ≡ true → take 2 (drop result.0 lines.now) ≡ star ∷ slash ∷ [] }
{
    let (mut end, mut block) = next_significant(lines, block, at);
    while end < lines.len() {
        if at < end && is_star_pair(lines[end - 1], lines[end]) {
            return (end - 1, lines[end] == b'/', block);
        }
        let (further, later) = next_significant(lines, block, end + 1);
        end = further;
        block = later;
    }
    (end, false, block)
}

/// Returns whether the logical line may be white before `p.at`. That isn't known for a line where a
/// comment ends.
#[inline(always)]
fn may_be_white(lines: &[u8], p: Reach) -> bool
    requires order { InReach p lines.now }
    ensures black { (start : BulkState) → (r : Reached start lines.now p) → result ≡ false →
        r.read.now_white ≡ false }
{
    let before = &lines[p.base..p.at];
    if p.at_line_start {
        return is_line_white_after(before, p.begins);
    }
    is_line_white_after(before, true)
}

/// Skips a line comment with its newline.
#[inline(always)]
fn comment_step(lines: &[u8], p: Reach) -> Option<Reach>
    requires order { InReach p lines.now }
    requires some { 2 ≤ length (drop p.at lines.now) }
    requires first { take 2 (drop p.at lines.now) ≡ slash ∷ slash ∷ [] }
    ensures further { IfSome result (λ q. InReach q lines.now × (p.at < q.at)) }
    ensures read { GoesOn lines.now p result }
{
    let count = line_comment_len(&lines[p.at..])?;
    let at = p.at + count;
    Some(Reach {
        base: at,
        at_line_start: true,
        begins: true,
        at,
        ..p
    })
}

/// Skips a `#` that belongs to no directive, as `hash_step` of bulk.rt does.
#[inline(always)]
fn hash_step(lines: &[u8], p: Reach) -> Option<Reach>
    requires order { InReach p lines.now }
    requires some { 1 ≤ length (drop p.at lines.now) }
    requires first { take 1 (drop p.at lines.now) ≡ number_sign ∷ [] }
    ensures further { IfSome result (λ q. InReach q lines.now × (p.at < q.at)) }
    ensures read { GoesOn lines.now p result }
{
    let after = p.at + 1;
    if let Some(count) = other_word_len(&lines[after..]) {
        let at = after + count;
        return Some(Reach { at, ..p });
    }
    if may_be_white(lines, p) {
        return None;
    }
    Some(Reach { at: after, ..p })
}

/// Skips a splice of `count` bytes on a logical line that isn't white.
#[inline(always)]
fn splice_step(lines: &[u8], p: Reach, count: usize) -> Option<Reach>
    requires order { InReach p lines.now }
    requires some { (0 < count) × (count ≤ length (drop p.at lines.now)) }
    requires splice { IsSplice (take count (drop p.at lines.now)) }
    ensures further { IfSome result (λ q. InReach q lines.now × (p.at < q.at)) }
    ensures read { GoesOn lines.now p result }
{
    if may_be_white(lines, p) {
        return None;
    }
    let at = p.at + count;
    Some(Reach {
        base: at,
        at_line_start: true,
        begins: false,
        at,
        searched: at + SPLICED_BYTES,
    })
}

/// Skips what a slash or a backslash begins.
#[inline(always)]
fn text_step(lines: &[u8], p: Reach) -> Option<Reach>
    requires order { InReach p lines.now }
    requires some { p.at < length lines.now }
    ensures further { IfSome result (λ q. InReach q lines.now × (p.at < q.at)) }
    ensures read { GoesOn lines.now p result }
{
    let count = lexeme_len(&lines[p.at..])?;
    Some(Reach {
        at: p.at + count,
        ..p
    })
}

/// Skips a literal.
#[inline(always)]
fn literal_step(lines: &[u8], p: Reach) -> Option<Reach>
    requires order { InReach p lines.now }
    requires some { p.at < length lines.now }
    requires first { is_quote (slice_index lines.now p.at) ≡ true }
    ensures further { IfSome result (λ q. InReach q lines.now × (p.at < q.at)) }
    ensures read { GoesOn lines.now p result }
{
    let count = literal_len(&lines[p.at..], lines[p.at])?;
    Some(Reach {
        at: p.at + count,
        ..p
    })
}

/// Skips the rest of the line, from a quote on. If the line may end in a block comment or a splice,
/// skips only the literal.
#[inline(always)]
fn quote_step(lines: &[u8], p: Reach) -> Option<Reach>
    requires order { InReach p lines.now }
    requires some { p.at < length lines.now }
    requires first { is_quote (slice_index lines.now p.at) ≡ true }
    ensures further { IfSome result (λ q. InReach q lines.now × (p.at < q.at)) }
    ensures read { GoesOn lines.now p result }
{
    if p.at < p.searched {
        return literal_step(lines, p);
    }
    match quoted_line_len(&lines[p.at..]) {
        Ok(count) => {
            let at = p.at + count;
            Some(Reach {
                base: at,
                at_line_start: true,
                begins: true,
                at,
                ..p
            })
        }
        Err(count) => {
            let searched = p.at + count;
            literal_step(lines, Reach { searched, ..p })
        }
    }
}

/// Skips what a significant byte begins, except a block comment.
#[inline(always)]
fn code_step(lines: &[u8], p: Reach) -> Option<Reach>
    requires order { InReach p lines.now }
    requires some { p.at < length lines.now }
    ensures further { IfSome result (λ q. InReach q lines.now × (p.at < q.at)) }
    ensures read { GoesOn lines.now p result }
{
    let rest = &lines[p.at..];
    if rest.starts_with(b"#") {
        hash_step(lines, p)
    } else if rest.starts_with(b"//") {
        comment_step(lines, p)
    } else if is_quote(lines[p.at]) {
        quote_step(lines, p)
    } else if let Some(count) = splice_len(rest) {
        splice_step(lines, p, count)
    } else {
        text_step(lines, p)
    }
}

/// Skips a block comment. Stops if `lines` doesn't close it, or if a splice may stand between its
/// star and its slash.
#[inline(always)]
fn block_step(lines: &[u8], block: Block, p: Reach) -> (Option<Reach>, Block)
    requires order { InReach p lines.now }
    requires block { IsBlock block lines.now }
    requires some { 2 ≤ length (drop p.at lines.now) }
    requires first { take 2 (drop p.at lines.now) ≡ slash ∷ star ∷ [] }
    ensures block { IsBlock result.1 lines.now }
    ensures further { IfSome result.0 (λ q. InReach q lines.now × (p.at < q.at)) }
    ensures read { GoesOn lines.now p result.0 }
{
    let (pair, closes, last) = find_star_pair(lines, block, p.at + 2);
    if closes {
        let next = Reach {
            base: pair + 2,
            at_line_start: false,
            begins: false,
            at: pair + 2,
            ..p
        };
        return (Some(next), last);
    }
    (None, last)
}

/// Skips what a significant byte begins.
#[inline(always)]
fn step(lines: &[u8], block: Block, p: Reach) -> (Option<Reach>, Block)
    requires order { InReach p lines.now }
    requires block { IsBlock block lines.now }
    requires some { p.at < length lines.now }
    ensures block { IsBlock result.1 lines.now }
    ensures further { IfSome result.0 (λ q. InReach q lines.now × (p.at < q.at)) }
    ensures read { GoesOn lines.now p result.0 }
{
    let rest = &lines[p.at..];
    if rest.starts_with(b"/*") {
        block_step(lines, block, p)
    } else {
        (code_step(lines, p), block)
    }
}

/// Skips text lines from `begun` on. Returns the beginning of the line where the skip stops.
fn skip_text_from(lines: &[u8], block: Block, begun: Reach) -> Option<LineStart>
    requires order { InReach begun lines.now }
    requires block { IsBlock block lines.now }
    ensures bound { IfSome result (λ line. line.at ≤ length lines.now) }
    ensures skipped { (start : BulkState) → Reached start lines.now begun →
        IfSome result (λ line. SkippedBy start lines.now line) }
{
    let (at, first) = next_significant(lines, block, begun.at);
    let mut block = first;
    let mut p = Reach { at, ..begun };
    while p.at < lines.len() {
        let (next, last) = step(lines, block, p);
        let Some(next) = next else {
            return last_line(lines, p);
        };
        let (at, found) = next_significant(lines, last, next.at);
        block = found;
        p = Reach { at, ..next };
    }
    last_line(lines, p)
}

/// Skips text lines, from the state of `lexer` on. Returns the beginning of the first line that
/// isn't skipped; `None` if that isn't known.
pub(crate) fn skip_text_lines(lexer: Lexer, lines: &[u8]) -> Option<LineStart>
    requires starts { can_start (lex_state_of lexer.state) ≡ true }
    ensures bound { IfSome result (λ line. line.at ≤ length lines.now) }
    ensures skipped { IfSome result (λ line. SkippedBy (bulk_state_of lexer) lines.now line) }
{
    match lexer.state {
        LexState::Text => {
            let begun = Reach {
                base: 0,
                at_line_start: true,
                begins: lexer.white,
                at: 0,
                searched: 0,
            };
            skip_text_from(lines, no_block(lines), begun)
        }
        LexState::Block => {
            let (pair, closes, block) = find_star_pair(lines, no_block(lines), 0);
            if closes {
                let begun = Reach {
                    base: pair + 2,
                    at_line_start: false,
                    begins: false,
                    at: pair + 2,
                    searched: 0,
                };
                return skip_text_from(lines, block, begun);
            }
            None
        }
        _ => None,
    }
}
