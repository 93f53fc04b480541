//! The symbols that no condition names.
//!
//! Each row of the symbols begins with a mark, and loses it once a condition of a text that is read
//! has its name. A name is looked up once for each word, whatever the number of names.

ghost use Rattle.std.specs.Prelude.{◌≡◌, ◌∷◌, [], false, filter, map};
ghost use Rattle.std.specs.List.{count_by, flat_map};
ghost use Rattle.ud_cond.specs.symbols.Marks.{is_marked};
ghost use Rattle.ud_io.specs.Streams.{Sends, stream_of};
ghost use Rattle.ud_replace.specs.MadeOutcomes.{output_of};
ghost use Rattle.ud_tree.specs.Remainders.{FindsAll};
ghost use Rattle.ud_tree.specs.Reports.{KeepsScreen, Says};
ghost use Rattle.ud_tree.specs.Runs.{made};
ghost use Rattle.ud_tree.specs.Summaries.{none_named_line, still_unnamed};
ghost use Rattle.ud_tree.specs.Summaries.{unnamed_line, unnamed_text};
ghost use Rattle.ud_tree.specs.Unnamed.{FindsNames, Seeks};

use crate::job::Job;
use crate::report::{Report, report_line};
use itoa::Buffer;
use std::alloc::Global;
use std::io::Write;
use ud_cond::Symbols;
use ud_io::Watched;
use ud_passes::{Listing, Remaining};
use ud_replace::Kept;

/// Writes a line for each of some names whose row is marked.
fn report_marked<E: Write>(
    alloc: Global,
    err: &mut Watched<E>,
    symbols: &Symbols,
    marks: &[bool],
    names: &[Vec<u8>],
)
    ensures { Sends (stream_of E.contents err.old) (stream_of E.contents err.new)
        (flat_map unnamed_line
        (filter (is_marked symbols.now marks.now) (map (λ n. n.items) names.now))) }
{
    for name in names {
        if symbols.is_marked(name.as_slice(), marks) {
            report_line(alloc, err, &[b"no condition names ", name.as_slice()]);
        }
    }
}

/// Returns how many of some names have a row whose mark is set.
fn marked_count(symbols: &Symbols, marks: &[bool], names: &[Vec<u8>]) -> usize
    ensures { result ≡ count_by (λ n. is_marked symbols.now marks.now n.items) names.now }
{
    names
        .iter()
        .filter(|name| symbols.is_marked(name.as_slice(), marks))
        .count()
}

impl<E: Write> Report<E> {
    /// Begins to look for the names of the symbols, unless the run is quiet. If memory runs out,
    /// records that.
    pub(crate) fn seek_names(&mut self, job: &Job<'_>)
        ensures { Seeks job.now.arguments.now self.old self.new }
    {
        if job.arguments.quiet {
            return;
        }
        match job.arguments.plan.run.symbols().all_marked() {
            Ok(marks) => self.unnamed = marks,
            Err(_) => self.note_lack(),
        }
    }

    /// Takes away the marks of the names that a condition of a text has. If memory runs out,
    /// records that.
    pub(crate) fn find_names(&mut self, job: &Job<'_>, text: &[u8])
        ensures screen { KeepsScreen self.old self.new }
        ensures finds { FindsNames job.now.arguments.now text.now self.old self.new }
    {
        if self.unnamed.is_empty() {
            return;
        }
        let (symbols, mode) = (job.arguments.plan.run.symbols(), job.mode());
        let mut counts = Remaining::new(job.alloc, Listing::Counted);
        match counts.add(b"", text, mode, symbols, &mut self.unnamed) {
            Ok(()) => {}
            Err(_) => self.note_lack(),
        }
    }

    /// Searches the text of a file and the output for it: takes away the marks of the names that a
    /// condition of the text has, and adds the mentions of symbols in the output. If these are one
    /// text, it is mostly searched once. If memory runs out, records that.
    pub(crate) fn find(&mut self, job: &Job<'_>, name: &[u8], kept: &Kept)
        ensures screen { KeepsScreen self.old self.new }
        ensures finds { FindsAll job.now.arguments.now (kept.now.text.items ∷ [])
            (made name.now (output_of kept.now)) self.old self.new }
    {
        let text = kept.text.as_slice();
        let output = kept.output();
        if kept.outcome.output.is_none() && job.arguments.search_remaining() {
            let (symbols, mode) = (job.arguments.plan.run.symbols(), job.mode());
            match self
                .remaining
                .add(name, output, mode, symbols, &mut self.unnamed)
            {
                Ok(()) => {}
                Err(_) => self.note_lack(),
            }
            return;
        }
        self.find_names(job, text);
        self.search(job, name, output);
    }

    /// Writes a line for each symbol that no condition names. If that is true of all of several
    /// symbols, one line says so.
    #[tactic(auto, using(crate::proofs::LineLemmas::unnamed_steps))]
    pub(crate) fn report_unnamed(&mut self, job: &Job<'_>)
        ensures { self.old.is_shown ≡ false → Says self.old self.new
            (unnamed_text job.now.arguments.now
            (still_unnamed job.now.arguments.now self.old.unnamed)) }
    {
        let symbols = job.arguments.plan.run.symbols();
        let names = job.arguments.names.as_slice();
        let count = marked_count(symbols, self.unnamed.as_slice(), names);
        if count > 1 && count == names.len() {
            self.report_none_named(count);
            return;
        }
        self.report_each_unnamed(job);
    }

    /// Writes that no condition names any of several symbols.
    fn report_none_named(&mut self, count: usize)
        ensures { Says self.old self.new (none_named_line count) }
    {
        let mut digits = Buffer::new();
        let number = digits.format(count).as_bytes();
        self.line(&[b"no condition names any of the ", number, b" symbols"]);
    }

    /// Writes a line for each symbol that no condition names.
    fn report_each_unnamed(&mut self, job: &Job<'_>)
        ensures { self.old.is_shown ≡ false → Says self.old self.new
            (flat_map unnamed_line (still_unnamed job.now.arguments.now self.old.unnamed)) }
    {
        let symbols = job.arguments.plan.run.symbols();
        let names = job.arguments.names.as_slice();
        report_marked(
            self.alloc,
            &mut self.err,
            symbols,
            self.unnamed.as_slice(),
            names,
        );
    }
}
