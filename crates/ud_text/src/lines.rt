//! Lines of a text from chunks of bytes.
//!
//! One line is buffered at a time, at most `MAX_LINE_BYTES` bytes with its ending, in a
//! `LineBuffer`. However the bytes are cut into chunks, the lines are those of the definitions
//! (ud_model, `text.Lines`). The states are: nothing is buffered; part of a line; a whole line,
//! until `clear`; closed; fused after an error. A whole line of a chunk needn't be buffered:
//! `whole_in` borrows one, and `consume` consumes many at once.
//!
//! A new way in which a line may end needs another `lines_of` and another `up_to_newline`.

ghost use Rattle.std.specs.Prelude.{◌≡◌, ℕ, suc, ◌+◌, ◌<◌, ◌≤◌, ◌↔◌, List, [], ◌∷◌, ◌++◌, length};
ghost use Rattle.std.specs.Prelude.{take, drop, true, false, Some, None, IfOk, IfErr, OnOk, OnErr};
ghost use Rattle.std.specs.Prelude.{IfSome, OnSome, IfNone, Ok, Err, IsTrue, Bool};
ghost use Rattle.ud_model.specs.text.Lines.{NoNewline, whole_lines, partial_line, line_at, text_of};
ghost use Rattle.ud_model.specs.text.Lines.{is_ending, IsWhole};
ghost use Rattle.ud_text.specs.lines.Borrowing.{CanBorrow, IsFirstLine};
ghost use Rattle.ud_text.specs.lines.LinesState.{LinesRepresent, UpToNewline, BreaksLimit};
ghost use Rattle.ud_text.specs.lines.LinesState.{with_fault, HasCapacity, IsComplete, IsLastLine};
ghost use Rattle.ud_text.specs.lines.LinesState.{IsLineOf, Closes, untaken};
ghost use Rattle.ud_model.specs.aids.LineViews.{as_line};
ghost use Rattle.ud_text.specs.lines.Consuming.{CanConsume, FirstIsLong};

use crate::searching::simd::find_in_lanes;
use memchr::memchr;
pub use newlines::count_lines;
use newlines::whole_lines_len;
use std::marker::Model;
use ud_model::{Line, MAX_LINE_BYTES, MAX_LINES};

mod fault;
mod line_buffer;
mod line_store;
mod newlines;

pub use fault::TextFault;
pub use line_buffer::{LineBuffer, LongLineBuffer, ShortLineBuffer};
pub use line_store::LineStore;

/// The number of bytes that are searched for a newline at once.
const NEAR_WINDOW_BYTES: usize = 32;

/// The prefix of a chunk that was taken.
#[derive(Clone, Copy, Debug, PartialEq, Eq)]
pub struct Taken {
    /// The number of bytes taken: up to and including the chunk's first newline, or all.
    pub used: usize,
    /// The last byte taken is a newline, so a whole line is buffered.
    pub whole: bool,
}

/// The line at the end of the bytes taken so far, in a buffer of its own.
#[derive(Drop)]
pub struct Lines<H: LineBuffer = LongLineBuffer> {
    /// The bytes of the line so far, with its ending.
    buffer: H,
    /// The line has its newline, which is then the last buffered byte.
    is_whole: bool,
    /// The number of lines consumed before the buffered one; at most `last`, and fewer if a byte is
    /// buffered.
    consumed: u32,
    /// The text has ended.
    is_closed: bool,
    /// The error after which the lines are fused.
    fault: Option<TextFault>,
    /// The number of the last line that the text may have, at most `MAX_LINES`.
    last: u32,
}

impl<H: LineBuffer> Model for Lines<H> {
    ghost use Rattle.std.specs.Prelude.{◌≡◌, ◌≤◌, ◌<◌, length, true};
    ghost use Rattle.ud_model.specs.declared.limits.TheConstants.{MAX_LINE_BYTES, MAX_LINES};
    ghost use Rattle.ud_text.specs.lines.LinesState.{LinesState};

    ghost Value = { LinesState };

    ghost view = { λ l. record {
      held = H.items l.buffer;
      whole = l.is_whole;
      before = l.consumed;
      closed = l.is_closed;
      fault = l.fault;
      last_line = l.last;
    } };

    ghost invariant = { λ l. (l.last ≤ MAX_LINES) × (l.consumed ≤ l.last)
        × (0 < length (H.items l.buffer) → l.consumed < l.last)
        × (l.is_whole ≡ true → 0 < length (H.items l.buffer))
        × (length (H.items l.buffer) ≤ MAX_LINE_BYTES) };
}

impl Lines<LongLineBuffer> {
    /// Returns the lines of a text before its first byte. The text may have `last_line` lines, from
    /// 1 to `MAX_LINES`. The buffer takes a line of any length.
    pub fn new(last_line: u32) -> Lines<LongLineBuffer>
        requires low { 1 ≤ last_line }
        requires high { last_line ≤ MAX_LINES }
        ensures value { result ≡ untaken last_line }
        ensures represents { LinesRepresent result [] }
    {
        Lines::with_buffer(last_line, LongLineBuffer::new())
    }
}

impl<H: LineBuffer> Lines<H> {
    /// Returns the lines of a text before its first byte, as `new` does, with this empty buffer.
    pub fn with_buffer(last_line: u32, buffer: H) -> Lines<H>
        requires empty { H.items buffer ≡ [] }
        requires low { 1 ≤ last_line }
        requires high { last_line ≤ MAX_LINES }
        ensures value { result ≡ untaken last_line }
        ensures represents { LinesRepresent result [] }
    {
        Lines {
            buffer,
            is_whole: false,
            consumed: 0,
            is_closed: false,
            fault: None,
            last: last_line,
        }
    }

    /// Appends `chunk` to the line, up to and including its first newline.
    ///
    /// `chunk` may be empty or have any bytes. It may have any length if the buffer takes a line of
    /// any length; otherwise it has to fit after the buffered bytes. No whole line may be buffered,
    /// and the text may not have ended. If the result is `whole`, the line is complete: read it
    /// with `line`, then call `clear`. Take the rest of the chunk next.
    ///
    /// # Errors
    /// In this order: `TooManyLines` at the first byte of a line past the last one that the text
    /// may have; `LineTooLong` at the first byte of a line past `MAX_LINE_BYTES`, its ending
    /// included. No byte of the chunk is buffered. Every later `take` and `close` returns the same
    /// error, also for an empty chunk, until `reset` begins another text.
    ///
    /// Lines are those of POSIX XBD 3.206; the last may lack its newline.
    pub fn take(&mut self, chunk: &[u8]) -> Result<Taken, TextFault>
        requires no_whole_line { self.old.whole ≡ false }
        requires not_closed { self.old.closed ≡ false }
        requires fits { HasCapacity H.CAPACITY self.old (length chunk.now) }
        ensures used { IfOk result (λ t. UpToNewline chunk.now t.used t.whole) }
        ensures value { IfOk result (λ t.
            self.new ≡ record self.old {
              held = self.old.held ++ take t.used chunk.now;
              whole =
                  t.whole;
            }) }
        ensures represents { IfOk result (λ t.
            (text : List ℕ) → LinesRepresent self.old text →
            LinesRepresent self.new (text ++ take t.used chunk.now)) }
        ensures no_fault { OnOk result (self.new.fault ≡ None) }
        ensures limits { IfOk result (λ t. 0 < t.used →
            (length self.new.held ≤ MAX_LINE_BYTES) × (self.old.before < self.old.last_line)) }

        ensures breaks_limit { IfNone self.old.fault
            (IfErr result (λ f. BreaksLimit self.old chunk.now f)) }
        ensures records_fault { IfErr result (λ f. self.new ≡ with_fault self.old f) }
        ensures unchanged { OnErr result ((text : List ℕ) → LinesRepresent self.old text →
            LinesRepresent self.new text) }
        ensures fused { IfSome self.old.fault (λ f. (result ≡ Err f) × (self.new ≡ self.old)) }
    {
        if let Some(fault) = self.fault {
            return Err(fault);
        }
        let taken = up_to_newline(chunk);
        if taken.used == 0 {
            return Ok(taken);
        }
        if self.consumed >= self.last {
            let fault = TextFault::TooManyLines {
                line: self.consumed + 1,
            };
            self.fault = Some(fault);
            return Err(fault);
        }
        let bytes = &chunk[..taken.used];
        let maximum = MAX_LINE_BYTES - self.buffer.as_slice().len();
        if bytes.len() > maximum || !self.buffer.try_append(bytes) {
            let fault = TextFault::LineTooLong {
                line: self.consumed + 1,
            };
            self.fault = Some(fault);
            return Err(fault);
        }
        self.is_whole = taken.whole;
        Ok(taken)
    }

    /// Returns the next line, borrowed from `chunk`, if `chunk` begins with a whole line. The line
    /// is consumed.
    ///
    /// `chunk` may have any length and any bytes. No whole line may be buffered, and the text may
    /// not have ended. The result is `None`, and nothing changes, in four cases: bytes of the line
    /// are buffered, an earlier call failed, `chunk` has no newline, or the line exceeds a limit.
    /// Then `take` takes the chunk or returns the error. Continue with the rest of the chunk, after
    /// the line's body and ending.
    ///
    /// Lines are those of POSIX XBD 3.206.
    pub fn whole_in<'a>(&mut self, chunk: &'a [u8]) -> Option<Line<'a>>
        requires no_whole_line { self.old.whole ≡ false }
        requires not_closed { self.old.closed ≡ false }
        ensures borrowed { IfSome result
            (λ line. CanBorrow self.old chunk.now (length (text_of (as_line line)))) }
        ensures value { IfSome result (λ line.
            as_line line ≡ line_at (suc self.old.before)
            (take (length (text_of (as_line line))) chunk.now)) }
        ensures bytes { IfSome result (λ line.
            text_of (as_line line) ≡ take (length (text_of (as_line line))) chunk.now) }
        ensures one_line { IfSome result (λ line. NoNewline line.body.now) }
        ensures bound { IfSome result (λ line. line.number ≤ self.old.last_line) }
        ensures counted { OnSome result (self.new ≡
            record self.old { before = self.old.before + 1 }) }
        ensures represents { IfSome result (λ line.
            (text : List ℕ) → LinesRepresent self.old text →
            LinesRepresent self.new (text ++ text_of (as_line line))) }

        ensures none { IfNone result ((used : ℕ) → CanBorrow self.old chunk.now used → ⊥) }
        ensures unchanged { IfNone result (self.new ≡ self.old) }
    {
        if self.fault.is_some()
            || !self.buffer.as_slice().is_empty()
            || self.consumed >= self.last
        {
            return None;
        }
        let line = first_line(chunk)?;
        let (body, ending) = split_ending(line);
        let number = self.consumed + 1;
        self.consumed = number;
        Some(Line {
            body,
            ending,
            number,
        })
    }

    /// Returns the next line, borrowed from `lines`, and consumes it.
    ///
    /// `lines` are whole lines that `consume` accepts, at least one. The result is that of
    /// `whole_in`, without its checks.
    #[inline(always)]
    pub fn next_in<'a>(&mut self, lines: &'a [u8]) -> Line<'a>
        requires whole_lines { CanConsume self.old lines.now }
        requires some { 0 < length lines.now }
        requires not_closed { self.old.closed ≡ false }
        ensures borrowed { CanBorrow self.old lines.now (length (text_of (as_line result))) }
        ensures value { as_line result ≡ line_at (suc self.old.before)
            (take (length (text_of (as_line result))) lines.now) }
        ensures bytes { text_of (as_line result) ≡
            take (length (text_of (as_line result))) lines.now }
        ensures one_line { NoNewline result.body.now }
        ensures bound { result.number ≤ self.old.last_line }
        ensures counted { self.new ≡ record self.old { before = self.old.before + 1 } }
        ensures represents { (text : List ℕ) → LinesRepresent self.old text →
            LinesRepresent self.new (text ++ text_of (as_line result)) }
    {
        let Some(at) = find_newline(lines) else {
            unreachable!();
        };
        let (body, ending) = split_newline(&lines[..at + 1]);
        let number = self.consumed + 1;
        self.consumed = number;
        Line {
            body,
            ending,
            number,
        }
    }

    /// Returns the length of a prefix of `chunk`, whole lines that `consume` accepts.
    ///
    /// `chunk` may have any length and any bytes. The result is 0 if bytes of a line are buffered,
    /// if an earlier call failed, or if the text might get too many lines (only if `chunk` has more
    /// bytes than lines may still come). Otherwise the prefix has all lines up to the first that is
    /// too long or isn't whole. For that line, call `whole_in` or `take`.
    pub fn whole_lines_len(&self, chunk: &[u8]) -> usize
        ensures bound { result ≤ length chunk.now }
        ensures whole_lines { 0 < result → CanConsume self.now (take result chunk.now) }
        ensures longest { self.now.held ≡ [] → self.now.fault ≡ None →
            self.now.before + length chunk.now ≤ self.now.last_line →
            FirstIsLong (drop result chunk.now) }
    {
        if self.fault.is_some() || !self.buffer.as_slice().is_empty() {
            return 0;
        }
        let count = whole_lines_len(chunk);
        if count > (self.last - self.consumed) as usize {
            return 0;
        }
        count
    }

    /// Consumes these whole lines. Returns the number of the last line consumed. See
    /// `whole_lines_len` for which lines may be consumed.
    #[tactic(auto, using(crate::proofs::lemmas::lines::ConsumeLemmas::represent_consumed))]
    pub fn consume(&mut self, lines: &[u8]) -> u32
        requires whole_lines { CanConsume self.old lines.now }
        requires not_closed { self.old.closed ≡ false }
        ensures value { self.new ≡ record self.old {
          before =
              self.old.before + length (whole_lines lines.now);
        } }
        ensures represents { (text : List ℕ) → LinesRepresent self.old text →
            LinesRepresent self.new (text ++ lines.now) }
        ensures number { result ≡ self.new.before }
    {
        let before = self.consumed;
        self.consumed = before + count_lines(lines) as u32;
        self.consumed
    }

    /// Returns how many more bytes fit, at most `maximum`. A buffer for a line of any length always
    /// takes `maximum`.
    pub fn remaining_capacity(&self, maximum: usize) -> usize
        ensures bound { result ≤ maximum }
        ensures fits { HasCapacity H.CAPACITY self.now result }
        ensures short { result < maximum → H.CAPACITY < MAX_LINE_BYTES }
        ensures full { result < maximum → H.CAPACITY ≤ length self.now.held + result }
    {
        if H::CAPACITY >= MAX_LINE_BYTES {
            return maximum;
        }
        maximum.min(H::CAPACITY - self.buffer.as_slice().len())
    }

    /// Returns whether the next byte begins a line that the text may have; no byte is then
    /// buffered.
    pub fn may_begin_line(&self) -> bool
        ensures { IsTrue result ↔
            ((self.now.held ≡ []) × (self.now.before < self.now.last_line)) }
    {
        self.buffer.as_slice().is_empty() && self.consumed < self.last
    }

    /// Converts to a buffer for a line of any length.
    pub fn into_long(self) -> Lines<LongLineBuffer>
        ensures { result ≡ self }
    {
        let mut buffer = LongLineBuffer::new();
        buffer.try_append(self.buffer.as_slice());
        Lines {
            buffer,
            is_whole: self.is_whole,
            consumed: self.consumed,
            is_closed: self.is_closed,
            fault: self.fault,
            last: self.last,
        }
    }

    /// Returns how many bytes of the line are buffered, its ending included.
    pub fn held(&self) -> usize
        ensures value { result ≡ length self.now.held }
        ensures bound { result ≤ MAX_LINE_BYTES }
    {
        self.buffer.as_slice().len()
    }

    /// Returns the buffered line: a whole one or, if `close` has returned `true`, the last one of
    /// the text, which lacks its newline.
    pub fn line(&self) -> Line<'_>
        requires complete { IsComplete self.now }
        ensures fits { length result.body.now ≤ H.CAPACITY }
        ensures value { as_line result ≡ line_at (suc self.now.before) self.now.held }
        ensures bound { result.number ≤ self.now.last_line }
        ensures one_line { (text : List ℕ) → LinesRepresent self.now text →
            NoNewline result.body.now }
        ensures represents { (text : List ℕ) → LinesRepresent self.now text →
            IsLastLine text (line_at (suc self.now.before) self.now.held) }
        ensures whole { self.now.whole ≡ true → (text : List ℕ) → LinesRepresent self.now text →
            (earlier : List (List ℕ)) × (whole_lines text ≡ earlier ++ self.now.held ∷ []) }
        ensures rest { self.now.whole ≡ false → (text : List ℕ) → LinesRepresent self.now text →
            partial_line text ≡ self.now.held }
    {
        let (body, ending) = split_ending(self.buffer.as_slice());
        Line {
            body,
            ending,
            number: self.consumed + 1,
        }
    }

    /// Discards the buffered whole line. The next `take` starts the next one.
    pub fn clear(&mut self)
        requires whole { self.old.whole ≡ true }
        ensures value { self.new ≡ record self.old {
          held = [];
          whole = false;
          before =
              self.old.before + 1;
        } }
        ensures represents { (text : List ℕ) → LinesRepresent self.old text →
            LinesRepresent self.new text }
    {
        self.buffer.clear();
        self.is_whole = false;
        self.consumed += 1;
    }

    /// Ends the text. No whole line may be buffered, and the text may not have ended before.
    ///
    /// Returns `true` if bytes are buffered: they are the text's last line, which `line` then
    /// returns.
    ///
    /// # Errors
    /// The error that `take` has returned, again. Nothing changes.
    pub fn close(&mut self) -> Result<bool, TextFault>
        requires no_whole_line { self.old.whole ≡ false }
        requires not_closed { self.old.closed ≡ false }
        ensures value { Closes self.old self.new result }
        ensures represents { (text : List ℕ) → LinesRepresent self.old text →
            LinesRepresent self.new text }
    {
        if let Some(fault) = self.fault {
            return Err(fault);
        }
        self.is_closed = true;
        Ok(!self.buffer.as_slice().is_empty())
    }

    /// Resets to the beginning of a new text with the same limit, whatever was taken before. Clears
    /// any error.
    pub fn reset(&mut self)
        ensures value { self.new ≡ untaken self.old.last_line }
        ensures represents { LinesRepresent self.new [] }
    {
        self.buffer.clear();
        self.is_whole = false;
        self.consumed = 0;
        self.is_closed = false;
        self.fault = None;
    }
}

/// Returns the position of the first newline, if it is near the beginning. Most lines are that
/// short.
#[inline(always)]
fn find_newline_near(chunk: &[u8]) -> Option<usize>
    ensures { IfSome result (λ at. UpToNewline chunk.now (at + 1) true) }
{
    if chunk.len() < NEAR_WINDOW_BYTES {
        return None;
    }
    let at = find_in_lanes::<NEAR_WINDOW_BYTES>(chunk, 0, [b'\n'; 5]);
    if at < NEAR_WINDOW_BYTES {
        Some(at)
    } else {
        None
    }
}

/// Returns the position of the first newline, if any.
#[inline(always)]
fn find_newline(chunk: &[u8]) -> Option<usize>
    ensures found { IfSome result (λ at. UpToNewline chunk.now (at + 1) true) }
    ensures none { IfNone result (UpToNewline chunk.now (length chunk.now) false) }
{
    match find_newline_near(chunk) {
        Some(at) => Some(at),
        None => memchr(b'\n', chunk),
    }
}

/// Returns the number of bytes up to and including the first newline, or of all if there is none.
#[inline(always)]
fn up_to_newline(chunk: &[u8]) -> Taken
    ensures { UpToNewline chunk.now result.used result.whole }
{
    match find_newline(chunk) {
        Some(at) => Taken {
            used: at + 1,
            whole: true,
        },
        None => Taken {
            used: chunk.len(),
            whole: false,
        },
    }
}

/// Returns the first line of `chunk` with its ending. `None` if `chunk` has no newline, or if the
/// line has more than `MAX_LINE_BYTES`.
fn first_line(chunk: &[u8]) -> Option<&[u8]>
    ensures some { IfSome result (λ line. IsFirstLine chunk.now line.now) }
    ensures none { IfNone result (FirstIsLong chunk.now) }
{
    let taken = up_to_newline(chunk);
    if taken.whole && taken.used <= MAX_LINE_BYTES {
        Some(chunk.split_at(taken.used).0)
    } else {
        None
    }
}

/// Splits a line that has its newline into its body and its ending.
#[inline(always)]
fn split_newline(line: &[u8]) -> (&[u8], &[u8])
    requires { IsWhole line.now }
    ensures value { (number : ℕ) →
        IsLineOf result.0.now result.1.now number (line_at number line.now) }
    ensures ended { IsTrue (is_ending result.1.now) }
{
    match line {
        [.., b'\r', _] => line.split_at(line.len() - 2),
        _ => line.split_at(line.len() - 1),
    }
}

/// Splits a line into its body and its ending.
fn split_ending(line: &[u8]) -> (&[u8], &[u8])
    ensures fits { length result.0.now ≤ length line.now }
    ensures value { (number : ℕ) →
        IsLineOf result.0.now result.1.now number (line_at number line.now) }
    ensures ended { IsTrue (is_ending result.1.now) }
{
    let ending = if line.ends_with(b"\r\n") {
        2
    } else if line.ends_with(b"\n") {
        1
    } else {
        0
    };
    line.split_at(line.len() - ending)
}

/// Returns the first line of a text, with this number. It has a newline, or is all of the text.
///
/// `text` may have any length and any bytes. So the line may have more than `MAX_LINE_BYTES`.
pub fn line_in(text: &[u8], number: u32) -> Line<'_>
    ensures bytes { (whole : Bool) ×
        UpToNewline text.now (length (text_of (as_line result))) whole }
    ensures value { as_line result ≡
        line_at number (take (length (text_of (as_line result))) text.now) }
    ensures one_line { NoNewline result.body.now }
{
    let taken = up_to_newline(text);
    let (body, ending) = split_ending(&text[..taken.used]);
    Line {
        body,
        ending,
        number,
    }
}
