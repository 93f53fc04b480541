//! The lexer of a line in C mode, which masks comments: their bytes are shown as spaces.
//!
//! The text is read a byte at a time, and the state after it is carried from byte to byte. A slash
//! is shown as a slash until the next byte begins a comment with it. Runs of bytes that leave the
//! state unchanged, outside comments and literals or within comments, are read at once.

ghost use Rattle.std.specs.Prelude.{◌≡◌, ◌≤◌, ◌<◌, ◌+◌, ◌&&◌, ℕ, List, [], ◌∷◌, ◌++◌, length, take};
ghost use Rattle.std.specs.Prelude.{replicate};
ghost use Rattle.ud_model.specs.text.Lines.{NoNewline};
ghost use Rattle.ud_model.specs.text.Scanning.{is_block};
ghost use Rattle.ud_model.specs.aids.LexStates.{next_state, opens_comment};
ghost use Rattle.ud_model.specs.aids.LexStates.{masked_byte, stays_white, blank_last};
ghost use Rattle.ud_model.specs.aids.LexStates.{kind_in_state, fresh_at, LexesTo};
ghost use Rattle.ud_text.specs.scan.LexerViews.{lex_state_of, shown_in, MasksMore, MasksContent};

use crate::lines::LineBuffer;
use crate::scan::marks::first_mark;
use arrayvec::ArrayVec;
use memchr::memchr;
use ud_model::bytes::{are_white, is_white};

/// The lexer's state after the spliced text so far.
#[derive(Clone, Copy)]
pub(crate) enum LexState {
    /// Outside comments and literals.
    Text,
    /// After a slash that begins no comment so far.
    Slash,
    /// In a block comment.
    Block,
    /// In a block comment, after a star that may close it.
    Star,
    /// In a line comment.
    ToLineEnd,
    /// In a literal with this quote.
    Literal(u8),
    /// In a literal with this quote, after a backslash that escapes the next byte.
    Backslash(u8),
}

/// The lexer after the text so far.
#[derive(Clone, Copy)]
pub(crate) struct Lexer {
    /// The state after the text.
    pub(crate) state: LexState,
    /// The text's last logical line shows only white space, except for a slash at its end that may
    /// begin a comment.
    pub(crate) white: bool,
}

/// Returns the state after `byte` outside comments and literals.
fn state_after_code(byte: u8) -> LexState
    ensures { lex_state_of result ≡ next_state (lex_state_of LexState.Text) byte }
{
    match byte {
        b'/' => LexState::Slash,
        b'"' | b'\'' => LexState::Literal(byte),
        _ => LexState::Text,
    }
}

/// Returns the state after `byte` in a literal.
fn state_after_literal(quote: u8, byte: u8) -> LexState
    ensures { lex_state_of result ≡ next_state (lex_state_of (LexState.Literal quote)) byte }
{
    if byte == b'\n' || byte == quote {
        LexState::Text
    } else if byte == b'\\' {
        LexState::Backslash(quote)
    } else {
        LexState::Literal(quote)
    }
}

/// Returns the state after `byte`.
pub(crate) fn next_state(state: LexState, byte: u8) -> LexState
    ensures { lex_state_of result ≡ next_state (lex_state_of state) byte }
{
    match state {
        LexState::Text => state_after_code(byte),
        LexState::Slash => match byte {
            b'*' => LexState::Block,
            b'/' => LexState::ToLineEnd,
            _ => state_after_code(byte),
        },
        LexState::Block if byte == b'*' => LexState::Star,
        LexState::Block => LexState::Block,
        LexState::Star => match byte {
            b'/' => LexState::Text,
            b'*' => LexState::Star,
            _ => LexState::Block,
        },
        LexState::ToLineEnd if byte == b'\n' => LexState::Text,
        LexState::ToLineEnd => LexState::ToLineEnd,
        LexState::Literal(quote) => state_after_literal(quote, byte),
        LexState::Backslash(_) if byte == b'\n' => LexState::Text,
        LexState::Backslash(quote) => LexState::Literal(quote),
    }
}

/// Returns whether `byte` begins a comment with the slash before it.
pub(crate) fn opens_comment(state: LexState, byte: u8) -> bool
    ensures { result ≡ opens_comment (lex_state_of state) byte }
{
    match state {
        LexState::Slash => byte == b'*' || byte == b'/',
        _ => false,
    }
}

/// Returns what the masked line shows for `byte`, unless a later byte begins a comment with it.
fn masked_byte(state: LexState, byte: u8) -> u8
    ensures { result ≡ masked_byte (lex_state_of state) byte }
{
    match state {
        LexState::Slash if byte == b'*' || byte == b'/' => b' ',
        LexState::Block | LexState::Star => b' ',
        LexState::ToLineEnd if byte != b'\n' => b' ',
        _ => byte,
    }
}

/// Returns whether the line is still white after `byte`. `white`: the line is white before it.
pub(crate) fn stays_white(state: LexState, white: bool, byte: u8) -> bool
    ensures { result ≡ stays_white (lex_state_of state) white byte }
{
    match state {
        LexState::Text if byte == b'/' => white,
        LexState::Slash => byte == b'\n' || white && (byte == b'*' || byte == b'/'),
        LexState::Block | LexState::Star => white,
        LexState::ToLineEnd => byte == b'\n' || white,
        _ => byte == b'\n' || white && is_white(byte),
    }
}

/// Returns whether the text so far ends in a block comment.
pub(crate) fn is_in_block_comment(state: LexState) -> bool
    ensures { result ≡ is_block (kind_in_state (lex_state_of state)) }
{
    matches!(state, LexState::Block | LexState::Star)
}

/// Replaces the last byte by a space.
fn blank_last<H: LineBuffer>(masked: &mut H)
    requires { length (H.items masked.old) ≤ H.CAPACITY }
    ensures items { H.items masked.new ≡ blank_last (H.items masked.old) }
    ensures len { length (H.items masked.new) ≡ length (H.items masked.old) }
{
    if masked.pop().is_some() {
        masked.push(b' ');
    }
}

/// Reads one more byte, and appends it as it is shown.
fn mask_byte<H: LineBuffer>(lexer: Lexer, byte: u8, masked: &mut H) -> Lexer
    requires { length (H.items masked.old) < H.CAPACITY }
    ensures masks { MasksMore lexer (H.items masked.old) (byte ∷ []) result (H.items masked.new) }
    ensures len { length (H.items masked.new) ≡ length (H.items masked.old) + 1 }
{
    if opens_comment(lexer.state, byte) {
        blank_last(masked);
    }
    masked.push(masked_byte(lexer.state, byte));
    Lexer {
        state: next_state(lexer.state, byte),
        white: stays_white(lexer.state, lexer.white, byte),
    }
}

/// Appends `bytes`.
fn append<H: LineBuffer>(bytes: &[u8], masked: &mut H)
    requires { length (H.items masked.old) + length bytes.now ≤ H.CAPACITY }
    ensures { H.items masked.new ≡ H.items masked.old ++ bytes.now }
{
    let _ = masked.try_append(bytes);
}

/// Appends `count` spaces.
fn append_spaces<H: LineBuffer>(count: usize, masked: &mut H)
    requires { length (H.items masked.old) + count ≤ H.CAPACITY }
    ensures { H.items masked.new ≡ H.items masked.old ++ replicate count 32 }
{
    for _space in 0..count {
        masked.push(b' ');
    }
}

/// Reads leading bytes that leave the state unchanged, outside comments and literals or in a
/// comment, and appends them as they are shown. Reads none in another state. Returns the lexer
/// after them, and their number.
fn mask_uniform<H: LineBuffer>(lexer: Lexer, rest: &[u8], masked: &mut H) -> (Lexer, usize)
    requires fits { length (H.items masked.old) + length rest.now ≤ H.CAPACITY }
    requires one_line { NoNewline rest.now }
    ensures masks { MasksMore lexer (H.items masked.old) (take result.1 rest.now) result.0
        (H.items masked.new) }
    ensures bound { result.1 ≤ length rest.now }
    ensures len { length (H.items masked.new) ≡ length (H.items masked.old) + result.1 }
{
    match lexer.state {
        LexState::Text => {
            let count = first_mark(rest);
            let run = &rest[..count];
            append(run, masked);
            let white = are_white(run) && lexer.white;
            (
                Lexer {
                    state: LexState::Text,
                    white,
                },
                count,
            )
        }
        LexState::Block => {
            let count = memchr(b'*', rest).unwrap_or(rest.len());
            append_spaces(count, masked);
            (lexer, count)
        }
        LexState::ToLineEnd => {
            append_spaces(rest.len(), masked);
            (lexer, rest.len())
        }
        _ => (lexer, 0),
    }
}

/// Reads the content of a line, and appends it to `masked` as it is shown.
#[inline(never)]
fn mask_content<H: LineBuffer>(lexer: Lexer, content: &[u8], masked: &mut H) -> Lexer
    requires empty { H.items masked.old ≡ [] }
    requires fits { length content.now ≤ H.CAPACITY }
    requires one_line { NoNewline content.now }
    ensures len { length (H.items masked.new) ≡ length content.now }
    ensures masks { MasksContent lexer content.now result (H.items masked.new) }
{
    let mut inside = lexer;
    let mut at = 0;
    while at < content.len() {
        let (now_inside, count) = mask_uniform(inside, &content[at..], masked);
        inside = now_inside;
        at += count;
        if at < content.len() {
            inside = mask_byte(inside, content[at], masked);
            at += 1;
        }
    }
    inside
}

/// Reads the content of a line. If the text before it ends outside comments and literals and it has
/// no mark, it is shown unchanged, and borrowed. Otherwise it is appended to `masked` as it is
/// shown.
#[inline(always)]
pub(crate) fn mask_or_borrow<'a, H: LineBuffer>(
    lexer: Lexer,
    content: &'a [u8],
    masked: &mut H,
) -> (Lexer, Option<&'a [u8]>)
    requires empty { H.items masked.old ≡ [] }
    requires fits { length content.now ≤ H.CAPACITY }
    requires one_line { NoNewline content.now }
    ensures len { length (shown_in result.1 (H.items masked.new)) ≡ length content.now }
    ensures masks { MasksContent lexer content.now result.0
        (shown_in result.1 (H.items masked.new)) }
{
    if let LexState::Text = lexer.state {
        if first_mark(content) == content.len() {
            let white = are_white(content) && lexer.white;
            let state = LexState::Text;
            return (Lexer { state, white }, Some(content));
        }
    }
    (mask_content(lexer, content, masked), None)
}

/// The most bytes of a line that are masked at once by `pass_content`.
const PIECE_BYTES: usize = 64;

/// Reads the content of a line of any length, without showing it.
pub(crate) fn pass_content(lexer: Lexer, content: &[u8]) -> Lexer
    requires one_line { NoNewline content.now }
    ensures { (text : List ℕ) → LexesTo text (lex_state_of lexer.state) lexer.white →
        LexesTo (text ++ content.now) (lex_state_of result.state) result.white }
{
    let mut masked: ArrayVec<u8, PIECE_BYTES> = ArrayVec::new();
    let mut inside = lexer;
    let mut rest = content;
    while !rest.is_empty() {
        let (piece, after) = rest.split_at(rest.len().min(PIECE_BYTES));
        masked.clear();
        inside = mask_content(inside, piece, &mut masked);
        rest = after;
    }
    inside
}

/// Returns whether a line with this content is fresh: only white space precedes it on its logical
/// line.
pub(crate) fn is_fresh(lexer: Lexer, content: &[u8]) -> bool
    ensures { result ≡ fresh_at (lex_state_of lexer.state) lexer.white content.now }
{
    match lexer.state {
        LexState::Slash => lexer.white && matches!(content.first(), Some(b'*' | b'/')),
        _ => lexer.white,
    }
}
