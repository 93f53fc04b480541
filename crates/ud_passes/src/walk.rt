//! A walk over the lines of a text, which every pass makes.
//!
//! Text lines are skipped many at once. Any other line that fits comes with its scan, which borrows
//! from the line and from a buffer of the pass.
//!
//! What comes next is a `Stretch`. A further kind of stretch needs a case in `IsNext`.

ghost use Rattle.std.specs.Prelude.{◌≡◌, ◌+◌, ◌<◌, ◌==◌, List, [], ℕ, length, true, false, drop};
ghost use Rattle.ud_model.specs.text.Scans.{Reading};
ghost use Rattle.ud_model.specs.declared.kind.Mode.{Mode};
ghost use Rattle.ud_passes.specs.Walks.{Walked, len_of, is_one_line, IsPrefixOf, IsFitting, IsNext};

use ud_model::{Line, MAX_LINE_BYTES, Mode, Scan};
use ud_text::{LineStore, Scanner, line_in};

/// The next lines of a text.
#[derive(Clone, Copy)]
pub(crate) enum Stretch<'t, 's> {
    /// Text lines.
    Texts(&'t [u8]),
    /// A line that fits, with its scan.
    Fitting(Line<'t>, Scan<'s>),
    /// A line over the limit.
    TooLong(Line<'t>),
}

/// A place in a text, at the beginning of a line.
#[derive(Drop)]
pub(crate) struct Walk<'t> {
    /// The text from here on.
    pub(crate) rest: &'t [u8],
    /// Text lines were taken last, so another is hardly next.
    is_stopped: bool,
    /// The scanner, after the lines before.
    scanner: Scanner<()>,
}

impl<'t> Walk<'t> {
    /// Returns the beginning of a text.
    pub(crate) fn new(text: &'t [u8]) -> Walk<'t>
        ensures rest { result.rest.now ≡ text.now }
        ensures walked { (mode : Mode) →
            Walked mode text.now [] result.rest.now result.scanner }
    {
        Walk {
            rest: text,
            is_stopped: false,
            scanner: Scanner::bare(),
        }
    }

    /// Returns whether the text has ended.
    pub(crate) fn is_at_end(&self) -> bool
        ensures { result ≡ (length self.now.rest.now == 0) }
    {
        self.rest.is_empty()
    }

    /// Takes the next lines: text lines, or one line. The masked line is written to `masked`,
    /// unless it is the line itself.
    pub(crate) fn next<'s>(&mut self, mode: Mode, masked: &'s mut LineStore) -> Stretch<'t, 's>
    where
        't: 's,
        requires some { 0 < length self.old.rest.now }
        ensures some { 0 < len_of result }
        ensures bytes { len_of result + length self.new.rest.now ≡ length self.old.rest.now }
        ensures fitting { IsFitting result }
        ensures next { (text : List ℕ) (read : List Reading) →
            Walked mode text read self.old.rest.now self.old.scanner →
            IsNext mode text read result self.new.rest.now self.new.scanner }
    {
        self.next_within(mode, self.rest.len(), masked)
    }

    /// Takes the next lines: text lines of at most `maximum` bytes in all, or one line. After text
    /// lines comes one line.
    pub(crate) fn next_within<'s>(
        &mut self,
        mode: Mode,
        maximum: usize,
        masked: &'s mut LineStore,
    ) -> Stretch<'t, 's>
    where
        't: 's,
        requires some { 0 < length self.old.rest.now }
        ensures one { maximum ≡ 0 → is_one_line result ≡ true }
        ensures some { 0 < len_of result }
        ensures bytes { len_of result + length self.new.rest.now ≡ length self.old.rest.now }
        ensures rest { self.new.rest.now ≡ drop (len_of result) self.old.rest.now }
        ensures prefix { IsPrefixOf maximum self.old.rest.now result }
        ensures fitting { IsFitting result }
        ensures next { (text : List ℕ) (read : List Reading) →
            Walked mode text read self.old.rest.now self.old.scanner →
            IsNext mode text read result self.new.rest.now self.new.scanner }
    {
        if maximum == 0 || self.is_stopped {
            return self.next_line(mode, masked);
        }
        let within = &self.rest[..maximum.min(self.rest.len())];
        let skipped = self.scanner.skip_text(mode, within);
        if skipped == 0 {
            return self.next_line(mode, masked);
        }
        let (bytes, rest) = self.rest.split_at(skipped);
        self.rest = rest;
        self.is_stopped = true;
        Stretch::Texts(bytes)
    }

    /// Takes the next line, even if it is a text line.
    fn next_line<'s>(&mut self, mode: Mode, masked: &'s mut LineStore) -> Stretch<'t, 's>
    where
        't: 's,
        requires some { 0 < length self.old.rest.now }
        ensures one { is_one_line result ≡ true }
        ensures some { 0 < len_of result }
        ensures bytes { len_of result + length self.new.rest.now ≡ length self.old.rest.now }
        ensures rest { self.new.rest.now ≡ drop (len_of result) self.old.rest.now }
        ensures fitting { IsFitting result }
        ensures next { (text : List ℕ) (read : List Reading) →
            Walked mode text read self.old.rest.now self.old.scanner →
            IsNext mode text read result self.new.rest.now self.new.scanner }
    {
        self.is_stopped = false;
        let line = line_in(self.rest, 1);
        let used = line.body.len() + line.ending.len();
        self.rest = self.rest.split_at(used).1;
        if used > MAX_LINE_BYTES {
            self.scanner.pass(mode, &line);
            return Stretch::TooLong(line);
        }
        let scan = self.scanner.read_into(mode, &line, masked);
        Stretch::Fitting(line, scan)
    }
}
