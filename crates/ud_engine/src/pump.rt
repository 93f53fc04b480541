//! A run over a reader.
//!
//! `run` reads chunks into its own buffer, and feeds their whole lines to an engine until the text
//! ends. The bytes of a line cut by a read wait there for the next read. It begins with an engine
//! for short lines, and switches to a buffer for the longest line when a line doesn't fit.

ghost use Rattle.std.specs.Prelude.{◌≡◌, ◌<◌, ◌≤◌, Option, length, take, false, IfSome, IfNone};
ghost use Rattle.std.specs.Prelude.{IfOk, IfErr, Err};
ghost use Rattle.ud_model.specs.sections.Items.{Options};
ghost use Rattle.ud_cond.specs.symbols.SymbolTable.{TableRepresents};
ghost use Rattle.ud_text.specs.lines.LinesState.{HasCapacity};
ghost use Rattle.ud_engine.specs.Runs.{RepresentsSomeText, Finished, FinishesRun, ContinuesRun};
ghost use Rattle.ud_engine.specs.Runs.{ErrorMatchesStreams};
ghost use Rattle.ud_engine.specs.Waiting.{IsWaiting, IsFurther, FeedsAllBut, StopsRun, EndsRun};
ghost use Rattle.ud_model.specs.declared.limits.TheConstants.{MAX_LINE_BYTES};

use crate::engine::{Engine, EngineOf};
use crate::fault::RunFault;
use std::io::{Read, Write};
use ud_args::Plan;
use ud_io::Watched;
use ud_sections::Printer;
use ud_text::{LineBuffer, LongLineBuffer, ShortLineBuffer, last_line_start};

/// The most bytes of one read.
pub(crate) const CHUNK_BYTES: usize = 8_192;

/// Prints the output for a text, or the names of its conditions, as the plan asks.
///
/// Reads from `reader` in chunks of at most `CHUNK_BYTES`, and writes to `out` meanwhile. Returns
/// whether some line's output differs from the line; `false` if names are listed. Takes no memory,
/// and doesn't flush `out`.
///
/// If neither stream fails, the appended bytes and the result are the one outcome of all bytes of
/// `reader` up to its end. However the run ends, the output for all whole lines before the last
/// chunk is written.
///
/// # Errors
/// - `Text` or `Section` if a line is faulty, after the output for the lines before it. Nothing
///   more is read.
/// - `Section` if the text ends in a comment or a section, after the output for all lines.
/// - `Read` if a read fails, after the output for the whole lines before.
/// - `Write` if a write fails.
///
/// # Examples
/// ```rust
/// let mut reader = Watched::new(b"#ifdef A\nx\n#else\ny\n#endif\n".as_slice());
/// let mut out = Watched::new(Vec::<u8>::new(alloc));
///
/// let differs = run(&plan, &mut reader, &mut out)?;
/// println!(rt; "differs: {differs}")?;
/// println!(rt; "output: {}", out.inner().as_slice().escape_ascii())?;
/// ```
/// ```text
/// differs: true
/// output: x\n
/// ```
pub fn run<R: Read, W: Write>(
    plan: &Plan,
    reader: &mut Watched<R>,
    out: &mut Watched<W>,
) -> Result<bool, RunFault>
    requires reader { reader.old.failed ≡ false }
    requires out { out.old.failed ≡ false }
    ensures finished { (o : Options) → o.settings ≡ plan.now.settings →
        TableRepresents plan.now.symbols o.table →
        Finished R.remaining W.contents o reader.old reader.new out.old out.new result }
    ensures error_matches { ErrorMatchesStreams reader.new.failed out.new.failed result }
{
    let printer = Printer::of(&plan.settings());
    let (lines, masked) = (ShortLineBuffer::new(), ShortLineBuffer::new());
    let mut engine = EngineOf::with_buffers(plan, printer, lines, masked);
    match pump(&mut engine, reader, out) {
        Some(ended) => ended,
        None => run_with_long_buffer(plan, &mut engine, reader, out),
    }
}

/// Continues the run with a buffer for the longest line.
///
/// The state of `short` moves to a new engine. Its buffer is local to this function, so runs
/// without a long line don't clear it.
///
/// # Errors
/// As `run`.
#[inline(never)]
fn run_with_long_buffer<R: Read, W: Write>(
    plan: &Plan,
    short: &mut Engine<'_, Printer, ShortLineBuffer>,
    reader: &mut Watched<R>,
    out: &mut Watched<W>,
) -> Result<bool, RunFault>
    requires reader { reader.old.failed ≡ false }
    requires out { out.old.failed ≡ false }
    requires begun { RepresentsSomeText short.old }
    ensures finished { FinishesRun R.remaining W.contents short.old reader.old reader.new
        out.old out.new result }
    ensures error_matches { ErrorMatchesStreams reader.new.failed out.new.failed result }
{
    let mut engine: Engine<'_, Printer, LongLineBuffer> = short.take_as_long(Printer::of(
        &plan.settings(),
    ));
    match pump(&mut engine, reader, out) {
        Some(ended) => ended,
        None => unreachable!(),
    }
}

/// Feeds the engine what `reader` gives until the text ends or a fault occurs.
///
/// The bytes of a line cut by a read wait in the buffer, before those of the next read. So the
/// engine is fed whole lines, and writes kept ones straight from the buffer. Returns `None` if the
/// engine can't take as many bytes as the buffer has, which never happens with a buffer for the
/// longest line. No byte then waits.
///
/// # Errors
/// As `run`.
fn pump<R: Read, W: Write, H: LineBuffer>(
    engine: &mut Engine<'_, Printer, H>,
    reader: &mut Watched<R>,
    out: &mut Watched<W>,
) -> Option<Result<bool, RunFault>>
    requires reader { reader.old.failed ≡ false }
    requires out { out.old.failed ≡ false }
    requires begun { RepresentsSomeText engine.old }
    ensures finished { IfSome result (FinishesRun R.remaining W.contents engine.old
        reader.old reader.new out.old out.new) }
    ensures error_matches { IfSome result
        (λ ended. ErrorMatchesStreams reader.new.failed out.new.failed ended) }
    ensures goes_on { IfNone result (ContinuesRun R.remaining W.contents engine.old engine.new
        reader.old reader.new out.old out.new) }
    ensures begun { IfNone result (RepresentsSomeText engine.new) }
    ensures not_failed { IfNone result ((reader.new.failed ≡ false) × (out.new.failed ≡ false)) }
    ensures full { IfNone result (H.CAPACITY < MAX_LINE_BYTES) }
{
    let mut buffer = [0u8; CHUNK_BYTES];
    let mut waiting = 0;
    loop {
        if engine.lines().remaining_capacity(CHUNK_BYTES) < CHUNK_BYTES {
            return None;
        }
        match reader.read(&mut buffer[waiting..]) {
            None => return Some(Err(RunFault::Read)),
            Some(0) => return Some(finish(engine, &buffer[..waiting], out)),
            Some(count) => match feed_lines(engine, &mut buffer, waiting + count, out) {
                Ok(left) => waiting = left,
                Err(fault) => return Some(Err(fault)),
            },
        }
    }
}

/// Feeds the engine the whole lines of the first `end` bytes of the buffer. Moves the bytes after
/// them to the buffer's beginning, and returns their number.
///
/// Feeds the engine all bytes, and returns 0, if part of a line fills the buffer, if the engine has
/// buffered part of the line, or if the text may have no further line.
///
/// # Errors
/// As `Engine::feed`.
fn feed_lines<W: Write, H: LineBuffer>(
    engine: &mut Engine<'_, Printer, H>,
    buffer: &mut [u8],
    end: usize,
    out: &mut Watched<W>,
) -> Result<usize, RunFault>
    requires not_failed { out.old.failed ≡ false }
    requires begun { RepresentsSomeText engine.old }
    requires fits { HasCapacity H.CAPACITY engine.old.lines CHUNK_BYTES }
    requires within { end ≤ length buffer.old }
    requires few { end ≤ CHUNK_BYTES }
    ensures len { length buffer.new ≡ length buffer.old }
    ensures waits { IfOk result (λ left. IsWaiting engine.new.lines (take left buffer.new)) }
    ensures room { IfOk result (λ left. left < CHUNK_BYTES) }
    ensures fits { IfOk result (λ left. 0 < left →
        HasCapacity H.CAPACITY engine.new.lines CHUNK_BYTES) }
    ensures goes_on { IfOk result (λ left. FeedsAllBut W.contents engine.old engine.new
        (take end buffer.old) (take left buffer.new) out.old out.new) }
    ensures begun { IfOk result (λ left. RepresentsSomeText engine.new) }
    ensures less { IfOk result (λ left. IsFurther engine.old.lines engine.new.lines end left) }
    ensures writer { IfOk result (λ left. out.new.failed ≡ false) }
    ensures stops { IfErr result (StopsRun W.contents engine.old (take end buffer.old)
        out.old out.new) }
    ensures error_matches { IfErr result
        (λ fault. ErrorMatchesStreams false out.new.failed (Err fault)) }
{
    let whole = last_line_start(&buffer[..end]);
    if let Err(fault) = engine.feed(&buffer[..whole], out) {
        return Err(fault);
    }
    let left = end - whole;
    if left < CHUNK_BYTES && engine.lines().may_begin_line() {
        buffer.copy_within(whole..end, 0);
        return Ok(left);
    }
    match engine.feed(&buffer[whole..end], out) {
        Ok(()) => Ok(0),
        Err(fault) => Err(fault),
    }
}

/// Feeds the engine the text's last bytes, which have no newline, and ends the text.
///
/// # Errors
/// As `run`.
fn finish<W: Write, H: LineBuffer>(
    engine: &mut Engine<'_, Printer, H>,
    rest: &[u8],
    out: &mut Watched<W>,
) -> Result<bool, RunFault>
    requires not_failed { out.old.failed ≡ false }
    requires begun { RepresentsSomeText engine.old }
    requires fits { HasCapacity H.CAPACITY engine.old.lines CHUNK_BYTES }
    requires few { length rest.now ≤ CHUNK_BYTES }
    ensures finished { EndsRun W.contents engine.old rest.now out.old out.new result }
    ensures error_matches { ErrorMatchesStreams false out.new.failed result }
{
    if rest.is_empty() {
        return engine.finish_in_place(out);
    }
    match engine.feed(rest, out) {
        Ok(()) => engine.finish_in_place(out),
        Err(fault) => Err(fault),
    }
}
