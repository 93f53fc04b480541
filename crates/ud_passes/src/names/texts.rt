//! The conditions of a text that can't be listed in full.

ghost use Rattle.std.specs.Prelude.{◌≡◌, ◌+◌, ◌≤◌, ◌<◌, ◌^◌, ◌++◌, ℕ, List, [], length, true, IfOk};
ghost use Rattle.std.specs.Prelude.{OnOk, if◌then◌else◌};
ghost use Rattle.ud_model.specs.text.Lines.{NoNewline, text_of};
ghost use Rattle.ud_model.specs.aids.LineViews.{as_line};
ghost use Rattle.ud_model.specs.declared.limits.TheConstants.{MAX_LINE_BYTES};
ghost use Rattle.ud_model.specs.aids.ReadAs.{read_as};
ghost use Rattle.ud_passes.specs.Passes.{AppendsSome, numbered_line};
ghost use Rattle.ud_passes.specs.names.UnlistedConditions.{unlisted_in, breaks, shown_body};
ghost use Rattle.ud_passes.specs.names.UnlistedLines.{listed_text, Listed};

use crate::folding::{VERTICAL_TAB, append_restored_line};
use crate::lines::append_line;
use crate::names::conditions::has_unlisted;
use crate::walk::{Stretch, Walk};
use std::alloc::{AllocError, Global};
use ud_model::{Line, Mode};
use ud_text::{LineStore, line_in};

/// A file whose conditions are counted.
#[derive(Clone, Copy)]
pub(crate) struct File<'a> {
    pub(crate) name: &'a [u8],
    /// The mode for reading its lines.
    pub(crate) mode: Mode,
    /// True if the conditions are listed, too.
    pub(crate) lists: bool,
    /// True if the text is folded.
    pub(crate) folded: bool,
}

/// The conditions found so far.
#[derive(Clone, Copy)]
struct Found {
    /// Their number.
    count: usize,
    /// The number of the next line, if the conditions are listed.
    number: usize,
}

impl<'a> File<'a> {
    /// Returns how many newlines the bytes have and represent, if lines are counted.
    fn breaks_in(self, bytes: &[u8]) -> usize
        ensures count { self.entry.lists ≡ true → result ≡ breaks self.entry.folded bytes.now }
        ensures few { result ≤ length bytes.now }
    {
        if !self.lists {
            return 0;
        }
        let folded = self.folded;
        bytes
            .iter()
            .filter(|byte| **byte == b'\n' || folded && **byte == VERTICAL_TAB)
            .count()
    }

    /// Returns what was found so far, after one more line.
    fn pass(self, found: Found, line: &Line<'_>) -> Found
        requires numbers { found.number + length (text_of (as_line line.now)) < 2 ^ 64 }
        ensures count { result.count ≡ found.count }
        ensures number { self.entry.lists ≡ true → result.number ≡
            found.number + breaks self.entry.folded (text_of (as_line line.now)) }
        ensures few { result.number ≤ found.number + length (text_of (as_line line.now)) }
    {
        Found {
            number: found.number + self.breaks_in(line.body) + self.breaks_in(line.ending),
            ..found
        }
    }

    /// Appends a line with this number: in a folded text, the first line that it represents.
    ///
    /// # Errors
    /// Fails if memory runs out.
    fn append_shown(
        self,
        number: usize,
        line: &Line<'_>,
        out: &mut Vec<u8>,
    ) -> Result<(), AllocError>
        requires one_line { NoNewline line.now.body.now }
        requires fits { length (text_of (as_line line.now)) ≤ MAX_LINE_BYTES }
        ensures grows { AppendsSome out.old.items out.new.items }
        ensures line { OnOk result (out.new.items ≡ out.old.items ++ numbered_line
            self.entry.name.now number (shown_body self.entry.folded (as_line line.now))) }
    {
        if !self.folded {
            return append_line(out, self.name, number, line.body);
        }
        let mut lines = Vec::new(*out.allocator());
        append_restored_line(line, &mut lines)?;
        let first = line_in(lines.as_slice(), 1);
        append_line(out, self.name, number, first.body)
    }

    /// Counts a condition, and appends its line if conditions are listed.
    ///
    /// # Errors
    /// Fails if memory runs out.
    fn add(self, found: Found, line: &Line<'_>, out: &mut Vec<u8>) -> Result<Found, AllocError>
        requires one_line { NoNewline line.now.body.now }
        requires fits { length (text_of (as_line line.now)) ≤ MAX_LINE_BYTES }
        requires counts { found.count + 1 < 2 ^ 64 }
        requires numbers { found.number + length (text_of (as_line line.now)) < 2 ^ 64 }
        ensures grows { AppendsSome out.old.items out.new.items }
        ensures count { IfOk result (λ f. f.count ≡ found.count + 1) }
        ensures number { IfOk result (λ f. self.entry.lists ≡ true → f.number ≡
            found.number + breaks self.entry.folded (text_of (as_line line.now))) }
        ensures few { IfOk result (λ f.
            f.number ≤ found.number + length (text_of (as_line line.now))) }
        ensures line { OnOk result (out.new.items ≡ out.old.items ++ (if self.entry.lists
            then numbered_line self.entry.name.now found.number
            (shown_body self.entry.folded (as_line line.now)) else [])) }
    {
        if self.lists {
            self.append_shown(found.number, line, out)?;
        }
        let next = self.pass(found, line);
        Ok(Found {
            count: next.count + 1,
            ..next
        })
    }

    /// Takes the next lines: counts and lists those whose condition can't be listed in full.
    ///
    /// # Errors
    /// Fails if memory runs out.
    fn step(
        self,
        alloc: Global,
        walk: &mut Walk<'_>,
        masked: &mut LineStore,
        found: Found,
        out: &mut Vec<u8>,
    ) -> Result<Found, AllocError>
        requires some { 0 < length walk.old.rest.now }
        requires numbers { found.number + length walk.old.rest.now < 2 ^ 64 }
        requires counts { found.count + length walk.old.rest.now < 2 ^ 64 }
        ensures grows { AppendsSome out.old.items out.new.items }
        ensures shorter { length walk.new.rest.now < length walk.old.rest.now }
        ensures numbers { IfOk result (λ f.
            f.number + length walk.new.rest.now ≤ found.number + length walk.old.rest.now) }
        ensures counts { IfOk result (λ f.
            f.count + length walk.new.rest.now ≤ found.count + length walk.old.rest.now) }
        ensures listed { IfOk result (λ f. (text start : List ℕ) →
            Listed self.entry text start found walk.old out.old.items →
            Listed self.entry text start f walk.new out.new.items) }
    {
        match walk.next(self.mode, masked) {
            Stretch::Texts(bytes) => Ok(Found {
                number: found.number + self.breaks_in(bytes),
                ..found
            }),
            Stretch::TooLong(line) => Ok(self.pass(found, &line)),
            Stretch::Fitting(line, scan) => {
                if has_unlisted(alloc, &scan) {
                    return Ok(self.add(found, &line, out)?);
                }
                Ok(self.pass(found, &line))
            }
        }
    }

    /// Counts the conditions of a text that can't be listed in full. Appends a line for each, if
    /// they are listed.
    ///
    /// # Errors
    /// Fails if memory runs out. Part of the list may have been appended.
    pub(crate) fn append_unlisted(
        self,
        alloc: Global,
        text: &[u8],
        out: &mut Vec<u8>,
    ) -> Result<usize, AllocError>
        ensures grows { AppendsSome out.old.items out.new.items }
        ensures count { IfOk result (λ n.
            n ≡ length (unlisted_in self.entry.mode text.now)) }
        ensures list { OnOk result (out.new.items ≡ out.old.items ++
            listed_text self.entry (read_as self.entry.mode text.now)) }
    {
        let mut masked = LineStore::new(alloc)?;
        let mut walk = Walk::new(text);
        let mut found = Found {
            count: 0,
            number: 1,
        };
        while !walk.is_at_end() {
            found = self.step(alloc, &mut walk, &mut masked, found, out)?;
        }
        Ok(found.count)
    }
}
