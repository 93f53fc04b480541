//! Scans the lines of a text, each in its mode.
//!
//! A scanner buffers only the last line, masked, and not even that one if masking leaves it
//! unchanged: its bytes are then borrowed. From line to line, a scanner carries three things: the
//! lexer's state after their spliced text, whether the last logical line is white, and whether the
//! last line joins the next one.
//!
//! `Scanner::read` copies the masked line, so that its caller need not keep the line.

ghost use Rattle.std.specs.Prelude.{◌≡◌, ◌≤◌, ◌||◌, ℕ, List, [], ◌∷◌, ◌++◌, length, true, false};
ghost use Rattle.std.specs.Prelude.{take, IfSome, OnSome};
ghost use Rattle.std.specs.Borrow.{sem};
ghost use Rattle.std.specs.List.{position_or_len};
ghost use Rattle.ud_model.specs.text.Bytes.{is_mark};
ghost use Rattle.ud_model.specs.text.Lines.{NoNewline, Line as TextLine};
ghost use Rattle.ud_model.specs.declared.kind.Mode.{Mode};
ghost use Rattle.ud_model.specs.text.Splicing.{is_spliced, content, stays_open};
ghost use Rattle.ud_model.specs.text.Scans.{Reading};
ghost use Rattle.ud_model.specs.text.Scanning.{comment_at, scan_after, next_reading};
ghost use Rattle.ud_model.specs.aids.LexStates.{kind_in_state, state_after_line, white_after_line};
ghost use Rattle.ud_model.specs.aids.LineViews.{as_line, as_scan};
ghost use Rattle.ud_text.specs.scan.LexerViews.{lex_state_of, shown_in};
ghost use Rattle.ud_text.specs.scan.ScannerState.{ScannerState, ScannerRepresents};
ghost use Rattle.ud_text.specs.scan.ScannerState.{scanner_state_of, initial_scanner_state};
ghost use Rattle.ud_text.specs.scan.ScannerState.{scan_with, ends_in_block, ReadsNext, IsNextScan};
ghost use Rattle.ud_text.specs.scan.ScannerState.{StaysAfter, IsScanOf};
ghost use Rattle.ud_text.specs.scan.ScanBorrows.{ScansLine};
ghost use Rattle.ud_text.specs.bulk.BulkScanning.{AreWholeLines, SkipsText};
ghost use Rattle.ud_text.specs.bulk.BulkStates.{can_start, continues_line};

use crate::bulk::plain::plain_text_len;
use crate::bulk::skip_text_lines;
use crate::lines::{LineBuffer, LongLineBuffer};
use crate::scan::lexer::{
    LexState, Lexer, is_fresh, is_in_block_comment, mask_or_borrow, next_state, pass_content,
    stays_white,
};
use crate::scan::marks::first_mark;
use std::marker::Model;
use ud_model::{CommentAt, Line, Mode, Scan};

/// The state that is carried from line to line.
#[derive(Clone, Copy)]
struct ScanState {
    /// The lexer after the spliced text of the lines in C mode after the last one in plain mode.
    lexer: Lexer,
    /// The last of these lines joins the next one.
    joins: bool,
}

/// The scan of a line without its masked bytes.
#[derive(Clone, Copy)]
struct LineFlags {
    /// On earlier lines, this logical line has only white masked bytes.
    fresh: bool,
    /// The line before joins this one.
    joins_before: bool,
    /// This line joins the next one.
    joins_after: bool,
    /// The line ends in a backslash that deletes its ending.
    spliced: bool,
    /// The comment left open at the line's end, if any.
    comment: CommentAt,
}

/// A scanned line: the state after it, and its scan.
#[derive(Clone, Copy)]
struct ScannedLine<'a> {
    /// The state after the line.
    scan_state: ScanState,
    /// The line's scan without its masked bytes.
    flags: LineFlags,
    /// The masked bytes, if they are bytes of the line itself. Otherwise they were appended to
    /// `masked`.
    borrowed: Option<&'a [u8]>,
}

/// A scanner of the lines of a text, which come in order, each in its mode. It reads lines whose
/// body fits in an `H`.
#[derive(Drop)]
pub struct Scanner<H = LongLineBuffer> {
    /// The state after the lines so far.
    scan_state: ScanState,
    /// The last line, masked, if its own bytes weren't borrowed.
    masked: H,
}

/// Returns the state of a C run without lines.
fn initial_state() -> ScanState
    ensures { scanner_state_of result ≡ initial_scanner_state }
{
    ScanState {
        lexer: Lexer {
            state: LexState::Text,
            white: true,
        },
        joins: false,
    }
}

/// Returns whether the line ends in a backslash that deletes its ending.
fn is_spliced(line: &Line<'_>) -> bool
    ensures { result ≡ is_spliced (as_line line.now) }
{
    line.body.ends_with(b"\\") && !line.ending.is_empty()
}

/// Returns the line's body without a splice's backslash.
fn content<'a>(line: &Line<'a>, spliced: bool) -> &'a [u8]
    requires { spliced ≡ is_spliced (as_line line.now) }
    ensures { result.now ≡ content (as_line line.now) }
{
    if spliced {
        &line.body[..line.body.len() - 1]
    } else {
        line.body
    }
}

/// Returns the lexer after the line's newline, if the spliced text has one there.
fn end_line(line: &Line<'_>, spliced: bool, inside: Lexer) -> Lexer
    requires { spliced ≡ is_spliced (as_line line.now) }
    ensures state { lex_state_of result.state ≡
        state_after_line (stays_open (as_line line.now)) (lex_state_of inside.state) }
    ensures white { result.white ≡
        white_after_line (stays_open (as_line line.now)) (lex_state_of inside.state) inside.white }
{
    if spliced || line.ending.is_empty() {
        inside
    } else {
        Lexer {
            state: next_state(inside.state, b'\n'),
            white: stays_white(inside.state, inside.white, b'\n'),
        }
    }
}

/// Returns the comment left open at the end of a line where the lexer is in `state`.
fn comment_at(spliced: bool, state: LexState) -> CommentAt
    ensures { result ≡ comment_at spliced (kind_in_state (lex_state_of state)) }
{
    match state {
        LexState::Block | LexState::Star => CommentAt::InBlock,
        LexState::ToLineEnd if spliced => CommentAt::InLine,
        _ => CommentAt::Outside,
    }
}

/// Scans a line in C mode. The masked bytes are appended to `masked`, unless they are borrowed.
#[inline(always)]
fn scan_code<'a, H: LineBuffer>(
    scan_state: ScanState,
    line: &Line<'a>,
    masked: &mut H,
) -> ScannedLine<'a>
    requires empty { H.items masked.old ≡ [] }
    requires fits { length line.now.body.now ≤ H.CAPACITY }
    requires one_line { NoNewline line.now.body.now }
    ensures represents { ReadsNext Mode.C scan_state (as_line line.now) result.scan_state }
    ensures value { IsNextScan Mode.C scan_state (as_line line.now)
        (scan_with (shown_in result.borrowed (H.items masked.new)) result.flags) }
    ensures fits { length (shown_in result.borrowed (H.items masked.new)) ≤
        length line.now.body.now }
{
    let spliced = is_spliced(line);
    let bytes = content(line, spliced);
    let fresh = is_fresh(scan_state.lexer, bytes);
    let (inside, borrowed) = mask_or_borrow(scan_state.lexer, bytes, masked);
    let lexer = end_line(line, spliced, inside);
    let joins = spliced || is_in_block_comment(lexer.state);
    let flags = LineFlags {
        fresh,
        joins_before: scan_state.joins,
        joins_after: joins,
        spliced,
        comment: comment_at(spliced, lexer.state),
    };
    let scan_state = ScanState { lexer, joins };
    ScannedLine {
        scan_state,
        flags,
        borrowed,
    }
}

/// Returns the state after a line of any length in C mode.
fn pass_code(scan_state: ScanState, line: &Line<'_>) -> ScanState
    requires one_line { NoNewline line.now.body.now }
    ensures { ReadsNext Mode.C scan_state (as_line line.now) result }
{
    let spliced = is_spliced(line);
    let inside = pass_content(scan_state.lexer, content(line, spliced));
    let lexer = end_line(line, spliced, inside);
    let joins = spliced || is_in_block_comment(lexer.state);
    ScanState { lexer, joins }
}

/// Returns the state after a line of any length in its mode.
fn pass_line(mode: Mode, scan_state: ScanState, line: &Line<'_>) -> ScanState
    requires one_line { NoNewline line.now.body.now }
    ensures { ReadsNext mode scan_state (as_line line.now) result }
{
    match mode {
        Mode::C => pass_code(scan_state, line),
        Mode::Plain => initial_state(),
    }
}

/// Returns whether the body has no mark. The most common directives, `#endif` and `#else`, are
/// recognized without a search.
#[inline(always)]
fn has_no_mark(body: &[u8]) -> bool
    ensures { result ≡ true → position_or_len is_mark body.now ≡ length body.now }
{
    match body {
        b"#endif" | b"#else" => true,
        _ => first_mark(body) == body.len(),
    }
}

/// Scans a line in C mode that masking leaves unchanged, and that leads to the initial state.
/// Returns `None` if that isn't known at once: the text before the line ends in a comment or a
/// literal, or the line has a mark or no ending.
#[inline(always)]
fn scan_without_marks<'a>(scan_state: ScanState, line: &Line<'a>) -> Option<ScannedLine<'a>>
    requires one_line { NoNewline line.now.body.now }
    ensures represents { IfSome result (λ scanned.
        ReadsNext Mode.C scan_state (as_line line.now) scanned.scan_state) }
    ensures value { IfSome result (λ scanned. (masked : List ℕ) →
        IsNextScan Mode.C scan_state (as_line line.now)
        (scan_with (shown_in scanned.borrowed masked) scanned.flags)) }
    ensures fits { IfSome result (λ scanned. (masked : List ℕ) →
        length (shown_in scanned.borrowed masked) ≤ length line.now.body.now) }
{
    let LexState::Text = scan_state.lexer.state else {
        return None;
    };
    if line.ending.is_empty() || !has_no_mark(line.body) {
        return None;
    }
    let flags = LineFlags {
        fresh: scan_state.lexer.white,
        joins_before: scan_state.joins,
        joins_after: false,
        spliced: false,
        comment: CommentAt::Outside,
    };
    let scan_state = initial_state();
    Some(ScannedLine {
        scan_state,
        flags,
        borrowed: Some(line.body),
    })
}

/// Scans a line in plain mode, where masking leaves it unchanged.
#[inline(always)]
fn scan_plain<'a>(line: &Line<'a>) -> ScannedLine<'a>
    ensures represents { (before : List Reading) →
        ScannerRepresents (scanner_state_of result.scan_state) (before ++
        next_reading before Mode.Plain (as_line line.now) ∷ []) }
    ensures value { (masked : List ℕ) → (before : List Reading) →
        scan_with (shown_in result.borrowed masked) result.flags ≡
        scan_after before Mode.Plain (as_line line.now) }
    ensures fits { (masked : List ℕ) →
        length (shown_in result.borrowed masked) ≤ length line.now.body.now }
{
    let flags = LineFlags {
        fresh: true,
        joins_before: false,
        joins_after: false,
        spliced: false,
        comment: CommentAt::Outside,
    };
    let scan_state = initial_state();
    let borrowed = Some(line.body);
    ScannedLine {
        scan_state,
        flags,
        borrowed,
    }
}

/// Scans a line in its mode. The masked bytes are appended to `masked`, unless they are borrowed.
#[inline(always)]
fn scan_line<'a, H: LineBuffer>(
    mode: Mode,
    scan_state: ScanState,
    line: &Line<'a>,
    masked: &mut H,
) -> ScannedLine<'a>
    requires fits { length line.now.body.now ≤ H.CAPACITY }
    requires one_line { NoNewline line.now.body.now }
    ensures represents { ReadsNext mode scan_state (as_line line.now) result.scan_state }
    ensures value { IsNextScan mode scan_state (as_line line.now)
        (scan_with (shown_in result.borrowed (H.items masked.new)) result.flags) }
    ensures fits { length (shown_in result.borrowed (H.items masked.new)) ≤
        length line.now.body.now }
{
    match mode {
        Mode::C => {
            if let Some(scanned) = scan_without_marks(scan_state, line) {
                return scanned;
            }
            masked.clear();
            scan_code(scan_state, line, masked)
        }
        Mode::Plain => scan_plain(line),
    }
}

/// Returns the scan with these flags and masked bytes.
#[inline(always)]
fn scan_with(flags: LineFlags, masked: &[u8]) -> Scan<'_>
    ensures { as_scan result ≡ scan_with masked.now flags }
{
    Scan {
        masked,
        fresh: flags.fresh,
        joins_before: flags.joins_before,
        joins_after: flags.joins_after,
        spliced: flags.spliced,
        comment: flags.comment,
    }
}

/// Returns the scan of a scanned line, whose masked bytes are in `masked` if they aren't borrowed.
#[inline(always)]
fn scan_of<'s, 'a: 's>(scanned: ScannedLine<'a>, masked: &'s [u8]) -> Scan<'s>
    ensures { as_scan result ≡ scan_with (shown_in scanned.entry.borrowed masked.now)
        scanned.entry.flags }
{
    match scanned.borrowed {
        Some(bytes) => scan_with(scanned.flags, bytes),
        None => scan_with(scanned.flags, masked),
    }
}

/// Copies the masked bytes of a line to `masked`, if they are bytes of the line itself.
fn keep_masked<H: LineBuffer>(borrowed: Option<&[u8]>, masked: &mut H)
    requires fits { length (shown_in borrowed (H.items masked.old)) ≤ H.CAPACITY }
    ensures { H.items masked.new ≡ shown_in borrowed.entry (H.items masked.old) }
{
    if let Some(bytes) = borrowed {
        masked.clear();
        masked.try_append(bytes);
    }
}

/// Returns whether the line before joins one that begins with this lexer: a block comment
/// continues, or a logical line that isn't white.
fn continues_line(lexer: Lexer) -> bool
    ensures { result ≡ continues_line (lex_state_of lexer.state) lexer.white }
{
    is_in_block_comment(lexer.state) || !lexer.white
}

/// Returns whether many lines can be skipped from this state. The next line then begins a logical
/// line, continues a block comment, or continues a logical line that isn't white, outside comments
/// and literals.
fn can_skip_text(scan_state: ScanState) -> bool
    ensures starts { result ≡ true → can_start (lex_state_of scan_state.lexer.state) ≡ true }
    ensures joins { result ≡ true →
        scan_state.joins ≡ continues_line (lex_state_of scan_state.lexer.state)
        scan_state.lexer.white }
{
    match scan_state.lexer.state {
        LexState::Text | LexState::Block => scan_state.joins == continues_line(scan_state.lexer),
        _ => false,
    }
}

/// Skips text lines in C mode. Returns how many bytes they have, and the state after them.
fn skip_text_in_c_mode(scan_state: ScanState, lines: &[u8]) -> (usize, ScanState)
    ensures bound { result.0 ≤ length lines.now }
    ensures ends { AreWholeLines (take result.0 lines.now) }
    ensures skips { SkipsText Mode.C (scanner_state_of scan_state) (scanner_state_of result.1)
        (take result.0 lines.now) }
{
    if !can_skip_text(scan_state) {
        return (0, scan_state);
    }
    let next = skip_text_lines(scan_state.lexer, lines);
    let joins = continues_line(next.lexer);
    let after = ScanState {
        lexer: next.lexer,
        joins,
    };
    (next.at, after)
}

/// Skips text lines in plain mode. Returns how many bytes they have, and the state after them.
fn skip_text_in_plain_mode(scan_state: ScanState, lines: &[u8]) -> (usize, ScanState)
    ensures bound { result.0 ≤ length lines.now }
    ensures ends { AreWholeLines (take result.0 lines.now) }
    ensures skips { SkipsText Mode.Plain (scanner_state_of scan_state) (scanner_state_of result.1)
        (take result.0 lines.now) }
{
    let count = plain_text_len(lines);
    if count == 0 {
        return (0, scan_state);
    }
    (count, initial_state())
}

impl<H> Model for Scanner<H> {
    ghost use Rattle.ud_text.specs.scan.ScannerState.{ScannerState, scanner_state_of};

    ghost Value = { ScannerState };

    ghost view = { λ s. scanner_state_of s.scan_state };
}

impl Scanner<LongLineBuffer> {
    /// Returns a scanner that has read no line. It reads lines of any length that a line may have.
    pub fn new() -> Scanner<LongLineBuffer>
        ensures { ScannerRepresents result [] }
    {
        Scanner::over(LongLineBuffer::new())
    }
}

impl<H: LineBuffer> Scanner<H> {
    /// Reads the next line of the text, and returns its scan. Later lines never change the scan.
    ///
    /// The line's body fits in an `H`, and none of its bytes is a newline. In plain mode masking
    /// leaves the line unchanged, and the next line in C mode starts afresh. In C mode each masked
    /// byte keeps its index in the body (C11 5.1.1.2, phases 2 and 3, and 6.4.9). The masked bytes
    /// are the scanner's: `read_into` saves their copy where it can borrow them from the line.
    ///
    /// # Examples
    /// ```rust
    /// let mut scanner = Scanner::new();
    /// let line = Line {
    ///     body: b"#if A /* since",
    ///     ending: b"\n",
    ///     number: 1,
    /// };
    /// let scan = scanner.read(Mode::C, &line);
    /// println!(rt; "masked: [{}]", scan.masked.escape_ascii())?;
    /// println!(rt; "joins the next line: {}", scan.joins_after)?;
    /// ```
    /// ```text
    /// masked: [#if A         ]
    /// joins the next line: true
    /// ```
    pub fn read(&mut self, mode: Mode, line: &Line<'_>) -> Scan<'_>
        requires fits { length line.now.body.now ≤ H.CAPACITY }
        requires one_line { NoNewline line.now.body.now }
        ensures* represents { sem 𝓛 (ScansLine H.row self.entry mode (as_line line.now)) }
        ensures value { (before : List Reading) → ScannerRepresents self.old before →
            as_scan result ≡ scan_after before mode (as_line line.now) }
        ensures fits { length result.masked.now ≤ length line.now.body.now }
    {
        let scanned = scan_line(mode, self.scan_state, line, &mut self.masked);
        self.scan_state = scanned.scan_state;
        keep_masked(scanned.borrowed, &mut self.masked);
        scan_with(scanned.flags, self.masked.as_slice())
    }
}

impl Scanner<()> {
    /// Returns a scanner that has read no line, without a buffer. Read with `read_into`.
    pub fn bare() -> Scanner<()>
        ensures { ScannerRepresents result [] }
    {
        Scanner::over(())
    }

    /// Reads the next line of the text, and returns its scan, as `read` does. The scan borrows from
    /// `masked` and from the line.
    #[inline(always)]
    pub fn read_into<'s, 'a: 's, H: LineBuffer>(
        &mut self,
        mode: Mode,
        line: &Line<'a>,
        masked: &'s mut H,
    ) -> Scan<'s>
        requires fits { length line.now.body.now ≤ H.CAPACITY }
        requires one_line { NoNewline line.now.body.now }
        ensures represents { (before : List Reading) → ScannerRepresents self.old before →
            ScannerRepresents self.new
            (before ++ next_reading before mode (as_line line.now) ∷ []) }
        ensures value { (before : List Reading) → ScannerRepresents self.old before →
            as_scan result ≡ scan_after before mode (as_line line.now) }
        ensures fits { length result.masked.now ≤ length line.now.body.now }
    {
        let scanned = scan_line(mode, self.scan_state, line, masked);
        self.scan_state = scanned.scan_state;
        scan_of(scanned, masked.as_slice())
    }
}

impl<H> Scanner<H> {
    /// Returns a scanner that has read no line, with this buffer.
    fn over(masked: H) -> Scanner<H>
        ensures { ScannerRepresents result [] }
    {
        Scanner {
            scan_state: initial_state(),
            masked,
        }
    }

    /// Reads the next line of the text, of any length, without its scan.
    ///
    /// The line's body has no newline. The scanner then represents one more reading, as after
    /// `read`.
    pub fn pass(&mut self, mode: Mode, line: &Line<'_>)
        requires one_line { NoNewline line.now.body.now }
        ensures { (before : List Reading) → ScannerRepresents self.old before →
            ScannerRepresents self.new
            (before ++ next_reading before mode (as_line line.now) ∷ []) }
    {
        self.scan_state = pass_line(mode, self.scan_state, line);
    }

    /// Returns the scan of the next line, if the scanner needs no change for it: no state is
    /// carried from the lines before, and the line has an ending and no mark (`first_mark`).
    ///
    /// Masking then leaves the line unchanged, in either mode. The scanner represents one more
    /// reading, as after `read`. If the result is `None`, call `read`.
    #[inline(always)]
    pub fn read_unmarked<'a>(&self, line: &Line<'a>) -> Option<Scan<'a>>
        requires one_line { NoNewline line.now.body.now }
        ensures represents { OnSome result (StaysAfter self.now (as_line line.now)) }
        ensures value { IfSome result (λ scan.
            IsScanOf self.now (as_line line.now) (as_scan scan)) }
        ensures masked { IfSome result (λ scan. scan.masked.now ≡ line.now.body.now) }
    {
        let state = self.scan_state;
        let LexState::Text = state.lexer.state else {
            return None;
        };
        if !state.lexer.white || state.joins {
            return None;
        }
        if line.ending.is_empty() || !has_no_mark(line.body) {
            return None;
        }
        Some(Scan {
            masked: line.body,
            fresh: true,
            joins_before: false,
            joins_after: false,
            spliced: false,
            comment: CommentAt::Outside,
        })
    }

    /// Skips text lines in this mode, many at once. Returns how many bytes of `lines` they have: 0,
    /// or up to the end of a line.
    ///
    /// `lines` may have any length and any bytes, and may end in the middle of a line. Limits
    /// aren't checked: a line may have more than `MAX_LINE_BYTES`, and lines aren't counted. The
    /// scanner then represents one more reading in this mode for each skipped line, as after
    /// `read`, whatever its number. No skipped line has a directive or a split keyword (C11
    /// 5.1.1.2, phases 2 and 3, 6.4.9 and 6.10). It may skip fewer lines than it could: read the
    /// next one with `read`.
    pub fn skip_text(&mut self, mode: Mode, lines: &[u8]) -> usize
        ensures bound { result ≤ length lines.now }
        ensures ends { AreWholeLines (take result lines.now) }
        ensures skips { SkipsText mode self.old self.new (take result lines.now) }
    {
        let (count, scan_state) = match mode {
            Mode::C => skip_text_in_c_mode(self.scan_state, lines),
            Mode::Plain => skip_text_in_plain_mode(self.scan_state, lines),
        };
        self.scan_state = scan_state;
        count
    }

    /// Returns whether a block comment is open at the end of the last line; `false` if no line was
    /// read.
    pub fn in_comment(&self) -> bool
        ensures { (before : List Reading) → ScannerRepresents self.now before →
            result ≡ ends_in_block before }
    {
        is_in_block_comment(self.scan_state.lexer.state)
    }
}

/// States that the carried state decides the scan of the next line. If the state represents two
/// lists of readings, any line has the same scan after both.
pub fn law_same_scans()
    ensures { (s : ScannerState) (before others : List Reading) (m : Mode) (l : TextLine) →
        ScannerRepresents s before → ScannerRepresents s others →
        scan_after before m l ≡ scan_after others m l }
{}
