//! The engine: takes a text in chunks, and writes the output for its lines.
//!
//! An engine buffers at most one line, the one cut by the end of the last chunk, and the machine's
//! open sections. The output for a chunk's lines is written before `feed` returns. Neighboring
//! lines that stay unchanged are copied together; smaller parts are buffered.
//!
//! A chunk is processed by steps of a `Cursor`. Each step skips many text lines, decides one line,
//! or buffers the line that the chunk begins.

ghost use Rattle.std.specs.Prelude.{◌≡◌, ◌++◌, [], ◌<◌, ◌≤◌, ◌-◌, ◌+◌, List, ℕ, suc, length, false};
ghost use Rattle.std.specs.Prelude.{IfOk, OnOk, OnErr, IfSome, OnSome, IfNone, None, Some, Err};
ghost use Rattle.std.specs.Prelude.{take, drop, true, not, MatchOption};
ghost use Rattle.ud_model.specs.sections.Directives.{skip_hash};
ghost use Rattle.ud_io.specs.Streams.{Accepts};
ghost use Rattle.ud_text.specs.bulk.BulkStates.{is_other_word};
ghost use Rattle.ud_text.specs.lines.LinesState.{HasCapacity, LinesRepresent};
ghost use Rattle.ud_text.specs.lines.Borrowing.{CanBorrow};
ghost use Rattle.ud_model.specs.text.Lines.{NoNewline, line_at, text_of};
ghost use Rattle.ud_model.specs.aids.LineViews.{as_line};
ghost use Rattle.ud_engine.specs.Feeding.{IsOpen, WriterMatches};
ghost use Rattle.ud_engine.specs.Finishing.{PrintsRest, without_fault};
ghost use Rattle.ud_engine.specs.Advancing.{IsCursor};

use crate::fault::RunFault;
use crate::line_processor::LineProcessor;
use crate::output::Output;
use crate::plan_source::PlanSource;
use std::io::Write;
use std::marker::Model;
use std::mem;
use ud_args::Plan;
use ud_cond::Symbols;
use ud_io::Watched;
use ud_model::MAX_LINES;
use ud_sections::Show;
use ud_text::{Line, LineBuffer, Lines, LongLineBuffer, ShortLineBuffer, is_other_word};

/// A position in a chunk. The bytes from `pending_start` to `pos` are to be copied to the output.
#[derive(Clone, Copy)]
struct Cursor {
    /// True after an attempt to skip text lines: the next line is then decided by itself.
    bulk_tried: bool,
    /// The end of the whole lines from `pos` on that are within the limits; at most `pos` if there
    /// are none.
    whole_end: usize,
    pending_start: usize,
    pos: usize,
}

/// Returns the cursor at `at`, with nothing pending.
fn cursor_at<H: LineBuffer>(lines: &Lines<H>, chunk: &[u8], at: usize) -> Cursor
    requires within { at ≤ length chunk.now }
    requires fits { HasCapacity H.CAPACITY lines.now (length chunk.now - at) }
    ensures cursor { IsCursor H.CAPACITY lines.now chunk.now result }
    ensures from { result.pending_start ≡ at }
    ensures at { result.pos ≡ at }
{
    Cursor {
        pending_start: at,
        pos: at,
        whole_end: at + lines.whole_lines_len(&chunk[at..]),
        bulk_tried: false,
    }
}

/// Returns the line at a cursor, borrowed from the chunk, and consumes it. Returns `None`, and
/// changes nothing, if the line must be buffered or exceeds a limit.
#[inline(always)]
fn next_line<'a, H: LineBuffer>(
    lines: &mut Lines<H>,
    chunk: &'a [u8],
    cursor: Cursor,
) -> Option<Line<'a>>
    requires cursor { IsCursor H.CAPACITY lines.old chunk.now cursor }
    requires no_whole_line { lines.old.whole ≡ false }
    requires not_closed { lines.old.closed ≡ false }
    ensures borrowed { IfSome result (λ line.
        CanBorrow lines.old (drop cursor.pos chunk.now) (length (text_of (as_line line)))) }
    ensures value { IfSome result (λ line. as_line line ≡ line_at (suc lines.old.before)
        (take (length (text_of (as_line line))) (drop cursor.pos chunk.now))) }
    ensures bytes { IfSome result (λ line. text_of (as_line line) ≡
        take (length (text_of (as_line line))) (drop cursor.pos chunk.now)) }
    ensures one_line { IfSome result (λ line. NoNewline line.body.now) }
    ensures fits { IfSome result (λ line. length line.body.now ≤ H.CAPACITY) }
    ensures bound { IfSome result (λ line. line.number ≤ lines.old.last_line) }
    ensures counted { OnSome result (lines.new ≡
        record lines.old { before = lines.old.before + 1 }) }
    ensures represents { IfSome result (λ line.
        (text : List ℕ) → LinesRepresent lines.old text →
        LinesRepresent lines.new (text ++ text_of (as_line line))) }
    ensures unchanged { IfNone result (lines.new ≡ lines.old) }
{
    if cursor.pos < cursor.whole_end {
        return Some(lines.next_in(&chunk[cursor.pos..cursor.whole_end]));
    }
    lines.whole_in(&chunk[cursor.pos..])
}

/// Returns whether a line begins with a `#` that may belong to a directive, where skipping text
/// lines would usually stop. Most conditionals have no white space around the `#`.
#[inline(always)]
fn begins_conditional(line: &[u8]) -> bool
    ensures { MatchOption (skip_hash line.now) (result ≡ false)
        (λ rest. result ≡ not (is_other_word rest)) }
{
    match line {
        [b'#', rest @ ..] => !is_other_word(rest),
        _ => false,
    }
}

/// Returns whether to try skipping text lines: not at a conditional, where skipping would stop.
#[inline(always)]
fn may_skip_text(chunk: &[u8], cursor: Cursor) -> bool
    requires { cursor.pos ≤ length chunk.now }
    ensures untried { result ≡ true → cursor.bulk_tried ≡ false }
    ensures some { result ≡ true → cursor.pos < cursor.whole_end }
{
    !cursor.bulk_tried && cursor.pos < cursor.whole_end && !begins_conditional(&chunk[cursor.pos..])
}

/// An engine: unifdef(1) over a text that comes in chunks. Its plan comes from a `P`.
#[derive(Drop)]
pub struct EngineOf<P: PlanSource, S: Show, H: LineBuffer = LongLineBuffer> {
    /// The plan that the command line gives.
    plan: P,
    /// The buffered line.
    lines: Lines<H>,
    /// The processor that decides and prints the lines.
    printer: LineProcessor<S>,
    /// The last line, masked, if that differs from the line.
    masked: H,
    /// The pending output.
    output: Output,
    /// The fault after which the engine is fused.
    fault: Option<RunFault>,
}

/// An engine that borrows its plan.
pub type Engine<'p, S, H = LongLineBuffer> = EngineOf<&'p Plan, S, H>;

impl<P: PlanSource, S: Show, H: LineBuffer> Model for EngineOf<P, S, H> {
    ghost use Rattle.ud_engine.specs.Feeding.{EngineState, IsOpen};

    ghost Value = { EngineState S };

    ghost view = { λ e. record {
      symbols = (P.plan e.plan).symbols;
      lines = e.lines;
      printer = e.printer;
      buffered = e.output;
      fault = e.fault;
    } };

    ghost invariant = { λ e. IsOpen e.lines };
}

impl<P: PlanSource, S: Show> EngineOf<P, S, LongLineBuffer> {
    ghost use Rattle.ud_engine.specs.Feeding.{Session, Begins, IsInSession};

    /// Returns an engine before the first byte. It prints by `show`, or lists names if the plan
    /// asks for that.
    ///
    /// `plan` is a `&Plan`, or a `Plan` that the engine owns. `show` has printed no line yet,
    /// unless names are listed. Takes no memory.
    ///
    /// # Examples
    /// ```rust
    /// let mut engine = Engine::new(&plan, Blank::new());
    /// engine.feed(b"#ifdef A\nx\n#endif\n", &mut out)?;
    /// println!(rt; "blanked: {}", out.inner().as_slice().escape_ascii())?;
    /// ```
    /// ```text
    /// blanked: \nx\n\n
    /// ```
    pub fn new(plan: P, show: S) -> EngineOf<P, S, LongLineBuffer>
        ensures represents { (s : Session) →
            Begins S.represents S.piece show (P.plan plan).settings (P.plan plan).symbols s →
            IsInSession S.represents S.piece result s }
        ensures no_fault { result.fault ≡ None }
    {
        EngineOf::with_buffers(plan, show, LongLineBuffer::new(), LongLineBuffer::new())
    }
}

impl<'p, S: Show> EngineOf<&'p Plan, S, ShortLineBuffer> {
    /// Moves the state to an engine whose buffer holds the longest line.
    ///
    /// Leaves behind an engine that prints by `show`, before its first byte.
    #[inline(never)]
    pub(crate) fn take_as_long(&mut self, show: S) -> EngineOf<&'p Plan, S, LongLineBuffer>
        ensures { result ≡ self.old }
    {
        let (lines, masked) = (ShortLineBuffer::new(), ShortLineBuffer::new());
        let spent = EngineOf::with_buffers(self.plan, show, lines, masked);
        let engine = mem::replace(self, spent);
        EngineOf {
            plan: engine.plan,
            lines: engine.lines.into_long(),
            printer: engine.printer,
            masked: LongLineBuffer::new(),
            output: engine.output,
            fault: engine.fault,
        }
    }
}

impl<P: PlanSource, S: Show, H: LineBuffer> EngineOf<P, S, H> {
    ghost use Rattle.ud_engine.specs.Feeding.{Session, Begins, IsInSession, FeedsChunk};
    ghost use Rattle.ud_engine.specs.Feeding.{WriterMatches, RecordsFault};
    ghost use Rattle.ud_engine.specs.Finishing.{Finishes};
    ghost use Rattle.ud_engine.specs.Advancing.{IsCursor, IsNext, AdvancesOrStops, IsPart};
    ghost use Rattle.ud_engine.specs.Advancing.{ConsumesOrStops, IsStep};
    ghost use Rattle.ud_engine.specs.FaultEffects.{result_after};

    /// Returns an engine before the first byte, as `new` does, with these buffers for a line and
    /// for a masked line.
    pub fn with_buffers(plan: P, show: S, buffer: H, masked: H) -> EngineOf<P, S, H>
        requires empty { H.items buffer ≡ [] }
        ensures represents { (s : Session) →
            Begins S.represents S.piece show (P.plan plan).settings (P.plan plan).symbols s →
            IsInSession S.represents S.piece result s }
        ensures no_fault { result.fault ≡ None }
    {
        let settings = plan.settings();
        EngineOf {
            plan,
            lines: Lines::with_buffer(MAX_LINES, buffer),
            printer: LineProcessor::new(settings, show),
            masked,
            output: Output::new(),
            fault: None,
        }
    }

    /// Processes the next chunk: writes the output for every line that ends in it.
    ///
    /// `chunk` may have any bytes. An engine with a buffer for the longest line accepts any length;
    /// others accept at most `Lines::remaining_capacity` bytes. The line that `chunk` begins, at
    /// most `MAX_LINE_BYTES`, is buffered until it ends. `out` hasn't failed, unless the engine is
    /// fused.
    ///
    /// # Errors
    /// - `Text` or `Section` if a line is faulty, after the output for the lines before it.
    /// - `Write` if a write fails, after a prefix of the output.
    ///
    /// The engine is then fused: every later `feed` and `finish` returns the same error, and writes
    /// nothing.
    ///
    /// # Examples
    /// ```rust
    /// engine.feed(b"#ifdef A\nx\ny", &mut out)?;
    /// println!(rt; "one chunk: {}", out.inner().as_slice().escape_ascii())?;
    /// engine.feed(b"\n#endif\n", &mut out)?;
    /// println!(rt; "two chunks: {}", out.inner().as_slice().escape_ascii())?;
    /// ```
    /// ```text
    /// one chunk: x\n
    /// two chunks: x\ny\n
    /// ```
    pub fn feed<W: Write>(&mut self, chunk: &[u8], out: &mut Watched<W>) -> Result<(), RunFault>
        requires not_failed { self.old.fault ≡ None → out.old.failed ≡ false }
        requires fits { HasCapacity H.CAPACITY self.old.lines (length chunk.now) }
        ensures feeds { FeedsChunk S.represents S.piece W.contents self.old self.new chunk.now
            out.old out.new result }
        ensures writer { self.old.fault ≡ None → WriterMatches out.new.failed result }
        ensures records_fault { RecordsFault self.new.fault result }
        ensures fused { IfSome self.old.fault (λ f. (result ≡ Err f) × (self.new ≡ self.old) ×
            (out.new ≡ out.old)) }
    {
        if let Some(fault) = self.fault {
            return Err(fault);
        }
        match self.process_chunk(chunk, out) {
            Ok(()) => Ok(()),
            Err(fault) => {
                self.fault = Some(fault);
                Err(fault)
            }
        }
    }

    /// Ends the text: writes the output for its last line, if that has no newline.
    ///
    /// Returns whether some line's output differs from the line; `false` if names are listed. `out`
    /// hasn't failed, unless the engine is fused.
    ///
    /// # Errors
    /// - The error of `feed` again, if the engine is fused. Nothing is written.
    /// - `Section` if the last line is faulty, after the output for the lines before it.
    /// - `Section` if the text ends in a block comment or a section, after the output for all
    ///   lines.
    /// - `Write` if a write fails.
    ///
    /// # Examples
    /// ```rust
    /// engine.feed(b"#ifndef A\nx\n#endif\ny", &mut out)?;
    /// println!(rt; "differs: {}", engine.finish(&mut out)?)?;
    /// println!(rt; "output: {}", out.inner().as_slice().escape_ascii())?;
    /// ```
    /// ```text
    /// differs: true
    /// output: y
    /// ```
    pub fn finish<W: Write>(self, out: &mut Watched<W>) -> Result<bool, RunFault>
        requires { self.fault ≡ None → out.old.failed ≡ false }
        ensures finishes { (s : Session) → IsInSession S.represents S.piece self s →
            Finishes s out.new.failed (W.contents out.old.inner) (W.contents out.new.inner) result }
        ensures writer { self.fault ≡ None → WriterMatches out.new.failed result }
        ensures fused { IfSome self.fault (λ f. (result ≡ Err f) × (out.new ≡ out.old)) }
    {
        let mut engine = self;
        engine.finish_in_place(out)
    }

    /// Ends the text, as `finish` does, and resets the line buffer. Don't feed the engine again.
    ///
    /// # Errors
    /// As `finish`.
    pub fn finish_in_place<W: Write>(&mut self, out: &mut Watched<W>) -> Result<bool, RunFault>
        requires { self.old.fault ≡ None → out.old.failed ≡ false }
        ensures finishes { (s : Session) → IsInSession S.represents S.piece self.old s →
            Finishes s out.new.failed (W.contents out.old.inner) (W.contents out.new.inner) result }
        ensures writer { self.old.fault ≡ None → WriterMatches out.new.failed result }
        ensures fused { IfSome self.old.fault (λ f. (result ≡ Err f) × (out.new ≡ out.old)) }
    {
        if let Some(earlier) = self.fault {
            return Err(earlier);
        }
        let ended = print_last_line(
            &mut self.lines,
            &mut self.printer,
            self.plan.symbols(),
            &mut self.masked,
            &mut self.output,
            out,
        );
        self.lines.reset();
        if let Err(fault) = ended {
            return Err(fault);
        }
        if let Err(fault) = self.printer.finish() {
            return Err(RunFault::Section(fault));
        }
        Ok(self.printer.differs())
    }

    /// Returns the lines of the text, which say how many bytes the next chunk may have.
    pub fn lines(&self) -> &Lines<H>
        ensures lines { result.now ≡ self.now.lines }
        ensures opened { IsOpen result.now }
    {
        &self.lines
    }

    /// Processes all of a chunk: writes the output for every line that ends in it.
    ///
    /// # Errors
    /// As `feed`.
    fn process_chunk<W: Write>(
        &mut self,
        chunk: &[u8],
        out: &mut Watched<W>,
    ) -> Result<(), RunFault>
        requires not_failed { out.old.failed ≡ false }
        requires fits { HasCapacity H.CAPACITY self.old.lines (length chunk.now) }
        ensures feeds { FeedsChunk S.represents S.piece W.contents self.old self.new chunk.now
            out.old out.new result }
        ensures writer { WriterMatches out.new.failed result }
        ensures fault { OnOk result (self.new.fault ≡ self.old.fault) }
    {
        let mut cursor = cursor_at(&self.lines, chunk, 0);
        while cursor.pos < chunk.len() {
            if let Err(fault) = self.advance(chunk, &mut cursor, out) {
                let pending = &chunk[cursor.pending_start..cursor.pos];
                return self.end_chunk(Err(fault), pending, out);
            }
        }
        self.end_chunk(Ok(()), &chunk[cursor.pending_start..cursor.pos], out)
    }

    /// Writes the buffered bytes and `pending`. Returns how the chunk ended: `Write` if a write
    /// failed, else as its lines ended.
    fn end_chunk<W: Write>(
        &mut self,
        ended: Result<(), RunFault>,
        pending: &[u8],
        out: &mut Watched<W>,
    ) -> Result<(), RunFault>
        ensures written { Accepts W.contents self.old.buffered [] out.old out.new pending.now }
        ensures flushed { self.new ≡ record self.old { buffered = [] } }
        ensures ended { result ≡ result_after out.new.failed ended }
    {
        self.output.flush_with(pending, out);
        if out.failed() {
            return Err(RunFault::Write);
        }
        ended
    }

    /// Takes the next step through a chunk: skips text lines, decides one line, or buffers the line
    /// that the chunk begins.
    ///
    /// A step that skips nothing only marks the cursor as tried.
    ///
    /// # Errors
    /// As `feed`, but the pending bytes before the faulty line aren't written yet.
    #[inline(always)]
    fn advance<W: Write>(
        &mut self,
        chunk: &[u8],
        cursor: &mut Cursor,
        out: &mut Watched<W>,
    ) -> Result<(), RunFault>
        requires cursor { IsCursor H.CAPACITY self.old.lines chunk.now cursor.old }
        requires some { cursor.old.pos < length chunk.now }
        ensures next { OnOk result (IsNext H.CAPACITY self.new.lines chunk.now cursor.old
            cursor.new) }
        ensures moves { AdvancesOrStops S.represents S.piece W.contents self.old self.new chunk.now
            cursor.old cursor.new out.old out.new result }
        ensures stays { OnErr result (cursor.new ≡ cursor.old) }
        ensures step { IsStep self.old self.new out.old out.new result }
    {
        if may_skip_text(chunk, *cursor) {
            *cursor = self.advance_in_bulk(chunk, *cursor, out);
            Ok(())
        } else {
            self.advance_line(chunk, cursor, out)
        }
    }

    /// Skips the next lines, as far as they are recognized as text. Returns the cursor after them.
    ///
    /// If they are copied, the pending bytes extend over them. If they are dropped, the pending
    /// bytes are appended to the output, and then nothing is pending.
    fn advance_in_bulk<W: Write>(
        &mut self,
        chunk: &[u8],
        cursor: Cursor,
        out: &mut Watched<W>,
    ) -> Cursor
        requires cursor { IsCursor H.CAPACITY self.old.lines chunk.now cursor }
        requires untried { cursor.bulk_tried ≡ false }
        requires some { cursor.pos < cursor.whole_end }
        ensures next { IsNext H.CAPACITY self.new.lines chunk.now cursor result }
        ensures moves { AdvancesOrStops S.represents S.piece W.contents self.old self.new chunk.now
            cursor result out.old out.new (Ok result) }
        ensures fault { self.new.fault ≡ self.old.fault }
    {
        let pending = &chunk[cursor.pending_start..cursor.pos];
        let lines = &chunk[cursor.pos..cursor.whole_end];
        let skipped = self.printer.skip_text(lines, &mut self.lines);
        let pos = cursor.pos + skipped.count;
        let bulk_tried = true;
        if skipped.kept {
            return Cursor {
                pos,
                bulk_tried,
                ..cursor
            };
        }
        self.output.append(pending, out);
        Cursor {
            pending_start: pos,
            pos,
            bulk_tried,
            ..cursor
        }
    }

    /// Decides the next line, or buffers the line that the chunk begins.
    ///
    /// # Errors
    /// As `advance`.
    #[inline(always)]
    fn advance_line<W: Write>(
        &mut self,
        chunk: &[u8],
        cursor: &mut Cursor,
        out: &mut Watched<W>,
    ) -> Result<(), RunFault>
        requires cursor { IsCursor H.CAPACITY self.old.lines chunk.now cursor.old }
        requires some { cursor.old.pos < length chunk.now }
        ensures next { OnOk result (IsNext H.CAPACITY self.new.lines chunk.now cursor.old
            cursor.new) }
        ensures moves { AdvancesOrStops S.represents S.piece W.contents self.old self.new chunk.now
            cursor.old cursor.new out.old out.new result }
        ensures stays { OnErr result (cursor.new ≡ cursor.old) }
        ensures step { IsStep self.old self.new out.old out.new result }
    {
        let pending = &chunk[cursor.pending_start..cursor.pos];
        let Some(line) = next_line(&mut self.lines, chunk, *cursor) else {
            match self.push_line_part(&chunk[cursor.pos..], pending, out) {
                Err(fault) => return Err(fault),
                Ok(used) => {
                    *cursor = cursor_at(&self.lines, chunk, cursor.pos + used);
                    return Ok(());
                }
            }
        };
        let end = cursor.pos + (line.body.len() + line.ending.len());
        let printer = &mut self.printer;
        let masked = &mut self.masked;
        let symbols = self.plan.symbols();
        let put = match printer.print(&line, symbols, masked, pending, &mut self.output, out) {
            Ok(put) => put,
            Err(fault) => return Err(RunFault::Section(fault)),
        };
        if put {
            *cursor = Cursor {
                pending_start: end,
                pos: end,
                whole_end: cursor.whole_end,
                bulk_tried: false,
            };
            return Ok(());
        }
        *cursor = Cursor {
            pending_start: cursor.pending_start,
            pos: end,
            whole_end: cursor.whole_end,
            bulk_tried: false,
        };
        Ok(())
    }

    /// Buffers bytes up to the first newline. If they end a line, appends `pending` and the output
    /// for that line; else appends `pending`.
    ///
    /// Returns how many bytes were consumed.
    ///
    /// # Errors
    /// As `advance`.
    #[inline(never)]
    fn push_line_part<W: Write>(
        &mut self,
        rest: &[u8],
        pending: &[u8],
        out: &mut Watched<W>,
    ) -> Result<usize, RunFault>
        requires some { 0 < length rest.now }
        requires fits { HasCapacity H.CAPACITY self.old.lines (length rest.now) }
        ensures part { IfOk result (IsPart H.CAPACITY self.new.lines rest.now) }
        ensures takes { ConsumesOrStops S.represents S.piece W.contents self.old self.new rest.now
            pending.now out.old out.new result }
        ensures step { IsStep self.old self.new out.old out.new result }
    {
        let taken = match self.lines.take(rest) {
            Ok(taken) => taken,
            Err(fault) => return Err(RunFault::Text(fault)),
        };
        if !taken.whole {
            self.output.append(pending, out);
            return Ok(taken.used);
        }
        let printed = self.printer.put_line(
            &self.lines.line(),
            self.plan.symbols(),
            &mut self.masked,
            pending,
            &mut self.output,
            out,
        );
        self.lines.clear();
        if let Err(fault) = printed {
            return Err(RunFault::Section(fault));
        }
        Ok(taken.used)
    }
}

/// Decides and prints the text's last line, if it has no newline.
///
/// # Errors
/// As `Engine::finish`.
fn print_last_line<S: Show, H: LineBuffer, W: Write>(
    lines: &mut Lines<H>,
    printer: &mut LineProcessor<S>,
    symbols: &Symbols,
    masked: &mut H,
    output: &mut Output,
    out: &mut Watched<W>,
) -> Result<(), RunFault>
    requires not_failed { out.old.failed ≡ false }
    requires opened { IsOpen lines.old }
    ensures last { PrintsRest S.represents S.piece W.contents
        (without_fault symbols.now lines.old printer.old output.old) printer.new
        out.old out.new result }
    ensures writer { WriterMatches out.new.failed result }
    ensures limit { lines.new.last_line ≡ lines.old.last_line }
{
    match lines.close() {
        Err(fault) => Err(RunFault::Text(fault)),
        Ok(false) => Ok(()),
        Ok(true) => match printer.put_line(&lines.line(), symbols, masked, &[], output, out) {
            Err(fault) => Err(RunFault::Section(fault)),
            Ok(()) => {
                output.flush(out);
                if out.failed() {
                    return Err(RunFault::Write);
                }
                Ok(())
            }
        },
    }
}
