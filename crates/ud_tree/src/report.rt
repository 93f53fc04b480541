//! The messages of unifdef-tree, and its progress.
//!
//! A message is a line on the error stream that begins with the program's name. Each message of a
//! `Report` is a fault, and faults are counted. On a terminal, a line with the number of files is
//! shown during the run, and removed before each message.

ghost use Rattle.std.specs.Prelude.{◌≡◌, [], ◌++◌, true, codes, encode_utf8, if◌then◌else◌};
ghost use Rattle.std.specs.List.{flat_map};
ghost use Rattle.unifdef.specs.RunMessages.{fault_message};
ghost use Rattle.ud_replace.specs.Calls.{met};
ghost use Rattle.ud_tree.specs.ArgumentMessages.{IsCut, RefusesArgument, argument_message};
ghost use Rattle.ud_tree.specs.ArgumentMessages.{in_its_place, mode_of, pattern_advice, symbol_in};
ghost use Rattle.ud_tree.specs.ArgumentMessages.{relation_advice};
ghost use Rattle.ud_tree.specs.Messages.{IsFailureOf, IsTextMessage, fault_line, locked_line};
ghost use Rattle.ud_tree.specs.Reports.{KeepsScreen, ReportsOf, ReportsOne, Says, Tells, TellsOf};
ghost use Rattle.ud_tree.specs.Reports.{counted, new_report};
ghost use Rattle.ud_tree.specs.Remainders.{listing_of, Finds};
ghost use Rattle.ud_io.specs.Streams.{Sends, stream_of};
ghost use Rattle.ud_tree.specs.Summaries.{line_of};
ghost use Rattle.ud_tree.specs.WalkMessages.{IsRefusal};

mod rules;
mod unnamed;

use crate::arguments::{ArgumentFault, Arguments};
use crate::job::Job;
use crate::paths::{FRESH, directory, escaped, fresh_end};
use crate::patterns::after_sign;
use crate::patterns::faults::{PatternFault, bare, sign_of};
use crate::send::{send_visible, send_visible_parts};
use itoa::Buffer;
use std::alloc::Global;
use std::io::{self, Write};
use std::marker::Model;
use ud_cond::Rules;
use ud_engine::RunFault;
use ud_io::{Watched, send, send_parts};
use ud_model::Settings;
use ud_model::bytes::word_len;
use ud_passes::{Listing, Remaining};
use ud_replace::Lookup;
use unifdef::report_result;

/// The number of files after which the line on the terminal is shown again.
const STEP: usize = 64;

/// The fault of an argument of `-g`, which follows.
const BAD_PATTERN: &[u8] = b"Bad pattern: ";

/// The fault of a file with another run's file beside it, whose path follows.
const LOCKED: &[u8] = b"Another run is at it; if none is, remove ";

/// The fault of a path that has newlines, as several paths have after which no NUL is.
const SEVERAL_LINES: &[u8] =
    b"Nothing is at a path of several lines; -0 wants a NUL after each path (git ls-files -z)";

/// Writes a message that isn't a fault: the program's name, the parts, and a newline. Each
/// byte of a control character is shown as `\x` and two hexadecimal digits.
///
/// Makes one write, so messages of concurrent runs don't mix, unless memory runs out.
pub fn report_line<E: Write>(alloc: Global, err: &mut Watched<E>, parts: &[&[u8]])
    ensures { Sends (stream_of E.contents err.old) (stream_of E.contents err.new)
        (line_of (flat_map (λ p. p.now) parts.now)) }
{
    let mut line = Watched::new(Vec::<u8>::new(alloc));
    send_line(&mut line, parts);
    if line.failed() {
        send_line(err, parts);
        return;
    }
    send(err, line.inner().as_slice());
}

/// Writes the program's name, the parts, and a newline.
fn send_line<W: Write>(out: &mut Watched<W>, parts: &[&[u8]])
    ensures { Sends (stream_of W.contents out.old) (stream_of W.contents out.new)
        (line_of (flat_map (λ p. p.now) parts.now)) }
{
    send(out, b"unifdef-tree: ");
    send_visible_parts(out, parts);
    send(out, b"\n");
}

/// Writes the message of unifdef for the fault of a text, in one write unless memory runs out.
fn report_text<E: Write>(
    alloc: Global,
    err: &mut Watched<E>,
    name: &[u8],
    settings: Settings,
    fault: RunFault,
)
    ensures { Sends (stream_of E.contents err.old) (stream_of E.contents err.new)
        (fault_message name.now fault) }
{
    let mut message = Watched::new(Vec::<u8>::new(alloc));
    report_result(&mut message, name, settings, Err(fault));
    if !message.failed() {
        send(err, message.inner().as_slice());
        return;
    }
    if !err.failed() {
        report_result(err, name, settings, Err(fault));
    }
}

/// Returns the text of an error of the system without its number.
fn without_code(text: &str) -> &str
    ensures { IsCut text.now result.now }
{
    match text.rsplit_once(" (os error ") {
        Some((reason, _)) => reason,
        None => text,
    }
}

/// Returns whether the mentions of symbols in outputs are counted or listed. Under `-p` the line of
/// a condition says why it stays.
fn listing_of(arguments: &Arguments) -> Listing
    ensures { result ≡ listing_of arguments.now }
{
    if !arguments.list_remaining {
        return Listing::Counted;
    }
    if !arguments.plan.prunes {
        return Listing::Listed;
    }
    Listing::Explained(Rules::of(arguments.plan.run.settings()))
}

/// The messages of a run so far, and the error stream to which they were written.
#[derive(Drop)]
pub(crate) struct Report<E: Write> {
    alloc: Global,
    /// The error stream.
    err: Watched<E>,
    /// True if the error stream is a terminal.
    is_terminal: bool,
    /// True if the terminal shows the number of files.
    is_shown: bool,
    /// The number of faults.
    faulty: usize,
    /// The mentions of symbols that outputs still have.
    remaining: Remaining,
    /// For each row of the symbols, whether its name is sought: no condition has it so far. Or
    /// nothing, if no name is sought.
    unnamed: Vec<bool>,
    /// True if memory ran out for some of these, or for a diff.
    lacks_memory: bool,
}

impl<E: Write> Model for Report<E> {
    ghost use Rattle.ud_io.specs.Streams.{stream_of};
    ghost use Rattle.ud_tree.specs.Reports.{ReportState};

    ghost Value = { ReportState };

    ghost view = { λ r. record {
      err = stream_of E.contents r.err;
      is_terminal = r.is_terminal;
      is_shown = r.is_shown;
      faulty = r.faulty;
      remaining = r.remaining;
      unnamed = r.unnamed.items;
      lacks_memory = r.lacks_memory;
    } };
}

impl<E: Write> Report<E> {
    /// Returns a report without messages.
    pub(crate) fn new(job: &Job<'_>, err: Watched<E>) -> Report<E>
        ensures { result ≡ new_report job.now.is_terminal (listing_of job.now.arguments.now)
            (stream_of E.contents err) }
    {
        Report {
            alloc: job.alloc,
            err,
            is_terminal: job.is_terminal,
            is_shown: false,
            faulty: 0,
            remaining: Remaining::new(job.alloc, listing_of(job.arguments)),
            unnamed: Vec::new(job.alloc),
            lacks_memory: false,
        }
    }

    /// Returns the error stream.
    pub(crate) fn into_stream(self) -> Watched<E>
        ensures { stream_of E.contents result ≡ self.err }
    {
        self.err
    }

    /// Returns the number of faults.
    pub(crate) fn faulty(&self) -> usize
        ensures { result ≡ self.now.faulty }
    {
        self.faulty
    }

    /// Returns the number of conditions that still name a symbol.
    pub(crate) fn remaining(&self) -> usize
        ensures { result ≡ self.now.remaining.count }
    {
        self.remaining.count()
    }

    /// Returns the number of lines that define a symbol.
    pub(crate) fn defined(&self) -> usize
        ensures { result ≡ self.now.remaining.defined }
    {
        self.remaining.defined()
    }

    /// Writes the list of mentions of symbols in outputs, if it is wanted.
    pub(crate) fn write_remaining<W: Write>(&self, job: &Job<'_>, out: &mut Watched<W>)
        ensures { Sends (stream_of W.contents out.old) (stream_of W.contents out.new)
            (if job.now.arguments.now.list_remaining then self.now.remaining.list else []) }
    {
        if !job.arguments.list_remaining {
            return;
        }
        send(out, self.remaining.list());
    }

    /// Returns whether memory ran out for something to be printed.
    pub(crate) fn lacks_memory(&self) -> bool
        ensures { result ≡ self.now.lacks_memory }
    {
        self.lacks_memory
    }

    /// Adds the mentions of symbols in a file's output, if they are wanted.
    pub(crate) fn search(&mut self, job: &Job<'_>, name: &[u8], output: &[u8])
        ensures screen { KeepsScreen self.old self.new }
        ensures finds { Finds job.now.arguments.now name.now output.now self.old self.new }
    {
        if !job.arguments.search_remaining() {
            return;
        }
        let (symbols, mode) = (job.arguments.plan.run.symbols(), job.mode());
        let mut none = Vec::new(job.alloc);
        match self.remaining.add(name, output, mode, symbols, &mut none) {
            Ok(()) => {}
            Err(_) => self.note_lack(),
        }
    }

    /// Records that memory ran out for something to be printed.
    pub(crate) fn note_lack(&mut self)
        ensures screen { KeepsScreen self.old self.new }
        ensures remaining { self.new.remaining ≡ self.old.remaining }
        ensures unnamed { self.new.unnamed ≡ self.old.unnamed }
        ensures lost { self.new.lacks_memory ≡ true }
    {
        self.lacks_memory = true;
    }

    /// Removes the number of files from the terminal.
    fn clear(&mut self)
        ensures { Says self.old self.new [] }
    {
        if !self.is_shown {
            return;
        }
        self.is_shown = false;
        send(&mut self.err, b"\r\x1b[K");
    }

    /// Shows on a terminal how many files are done.
    pub(crate) fn progress(&mut self, done: usize, all: usize)
        ensures { Tells self.old self.new [] }
    {
        if !self.is_terminal {
            return;
        }
        if done % STEP == 0 {
            let (mut first, mut second) = (Buffer::new(), Buffer::new());
            let done = first.format(done).as_bytes();
            let all = second.format(all).as_bytes();
            self.is_shown = true;
            let parts: [&[u8]; 5] = [b"\runifdef-tree: ", done, b" of ", all, b" files "];
            send_parts(&mut self.err, &parts);
        }
    }

    /// Writes a message that isn't a fault.
    pub(crate) fn line(&mut self, parts: &[&[u8]])
        ensures { Says self.old self.new (line_of (flat_map (λ p. p.now) parts.now)) }
    {
        self.clear();
        report_line(self.alloc, &mut self.err, parts);
    }

    /// Counts a fault.
    fn count(&mut self)
        ensures { self.new ≡ counted self.old }
    {
        self.faulty = self.faulty.saturating_add(1);
    }

    /// Writes and counts a fault.
    fn fault_of(&mut self, parts: &[&[u8]])
        ensures { ReportsOne (line_of (flat_map (λ p. p.now) parts.now)) self.old self.new }
    {
        self.count();
        self.line(parts);
    }

    /// Writes a fault of a path.
    pub(crate) fn fault(&mut self, path: &[u8], text: &[u8])
        ensures { ReportsOne (fault_line path.now text.now) self.old self.new }
    {
        self.fault_of(&[path, b": ", text]);
    }

    /// Writes a fault of a name in a directory, whose path ends in a slash.
    pub(crate) fn fault_in(&mut self, directory: &[u8], name: &[u8], text: &[u8])
        ensures { ReportsOne (fault_line (directory.now ++ name.now) text.now) self.old self.new }
    {
        self.fault_of(&[directory, name, b": ", text]);
    }

    /// Writes the fault of a file with another run's file beside it.
    pub(crate) fn locked(&mut self, path: &[u8])
        ensures { ReportsOne (locked_line path.now) self.old self.new }
    {
        self.fault_of(&[path, b": ", LOCKED, directory(path), FRESH, fresh_end(path)]);
    }

    /// Writes a fault of a path, and why a call failed.
    pub(crate) fn failure(&mut self, path: &[u8], text: &[u8], reason: Option<io::Error>)
        ensures { ReportsOf (IsFailureOf path.now text.now) self.old self.new }
    {
        match reason {
            None => self.fault(path, text),
            Some(error) => match format!(in self.alloc; "{error}") {
                Err(_) => self.fault(path, text),
                Ok(reason) => {
                    let reason = without_code(reason.as_str()).as_bytes();
                    self.fault_of(&[path, b": ", text, b": ", reason]);
                }
            },
        }
    }

    /// Writes that nothing is at a path.
    pub(crate) fn missing(&mut self, path: &[u8])
        ensures { ReportsOf (IsRefusal (met path.now Lookup.Absent)) self.old self.new }
    {
        if path.contains(&b'\n') {
            self.fault_of(&[SEVERAL_LINES]);
            return;
        }
        self.fault(path, b"No such file or directory");
    }

    /// Writes why it isn't known what is at a path.
    pub(crate) fn unknown(&mut self, path: &[u8], reason: Option<io::Error>)
        ensures { ReportsOf (IsRefusal (met path.now Lookup.Unknown)) self.old self.new }
    {
        if path.contains(&b'\n') {
            self.fault_of(&[SEVERAL_LINES]);
            return;
        }
        self.failure(path, b"Cannot be found", reason);
    }

    /// Writes the fault of a file's text, as unifdef does. Unless memory runs out, the bytes
    /// of control characters in the path are shown as `\x` and two hexadecimal digits.
    pub(crate) fn text_fault(&mut self, path: &[u8], settings: Settings, fault: RunFault)
        ensures { TellsOf (IsTextMessage path.now fault) self.old self.new }
    {
        self.count();
        self.clear();
        let mut name = Watched::new(Vec::<u8>::new(self.alloc));
        send_visible(&mut name, path);
        if name.failed() {
            report_text(self.alloc, &mut self.err, path, settings, fault);
            return;
        }
        report_text(
            self.alloc,
            &mut self.err,
            name.inner().as_slice(),
            settings,
            fault,
        );
    }
}

/// Writes that an argument isn't UTF-8. Files with such names are found in their directories, each
/// with a fault of its own.
pub fn report_bad_argument<E: Write>(alloc: Global, err: &mut Watched<E>, argument: &[u8])
    ensures { RefusesArgument argument.now (stream_of E.contents err.old)
        (stream_of E.contents err.new) }
{
    match escaped(alloc, argument) {
        Ok(shown) => {
            let shown = shown.as_slice();
            report_line(
                alloc,
                err,
                &[shown, b": Argument isn't UTF-8; name its directory"],
            );
        }
        Err(_) => report_line(alloc, err, &[b"Out of memory"]),
    }
}

/// The usage of the program.
pub(crate) const USAGE: &[u8] =
    b"usage: unifdef-tree [-Bdnpqrw0] [-g [!|+]pattern]... [-bcKklt] [-Dsym[=val]]... [-Usym]...\n                    [-iDsym[=val]]... [-iUsym]... [-xmode] [--] path...\n       unifdef-tree -s [-qr0] [-g [!|+]pattern]... [-t] [--] path...\n       unifdef-tree -h | -V\n";

/// Writes the message of a fault of the arguments.
pub fn report_argument_fault<E: Write>(alloc: Global, err: &mut Watched<E>, fault: &ArgumentFault)
    ensures { Sends (stream_of E.contents err.old) (stream_of E.contents err.new)
        (argument_message fault.now) }
{
    match fault {
        ArgumentFault::UnknownOption(letter) => {
            report_letter(
                alloc,
                err,
                b"Unknown option -",
                *letter,
                in_its_place(*letter),
            );
            send_parts(err, &[USAGE]);
        }
        ArgumentFault::MissingArgument(letter) => {
            report_letter(alloc, err, b"Option -", *letter, b" needs an argument");
        }
        ArgumentFault::BadSymbol(word) => {
            report_line(alloc, err, &[b"Bad symbol: ", word.as_bytes()]);
        }
        ArgumentFault::BadRelation(word) => {
            report_bad_relation(alloc, err, word.as_bytes());
        }
        ArgumentFault::BadMode(word) => {
            report_line(alloc, err, &[b"Bad exit mode: ", mode_of(word.as_bytes())]);
        }
        ArgumentFault::BadPattern(word, fault) => {
            report_bad_pattern(alloc, err, word.as_bytes(), *fault);
        }
        ArgumentFault::BesideNames(letter) => {
            report_letter(alloc, err, b"-", *letter, b" and -s don't go together");
        }
        ArgumentFault::SymbolsAndNames => report_line(
            alloc,
            err,
            &[b"Symbols and -s don't go together: it lists all names"],
        ),
        ArgumentFault::PruningAndComplement => report_line(
            alloc,
            err,
            &[b"-p and -c don't go together: the complement is no C"],
        ),
        ArgumentFault::PruningAndPlain => report_line(
            alloc,
            err,
            &[b"-p and -t don't go together: plain text has no comments"],
        ),
        ArgumentFault::SqueezingBeside(letter) => {
            report_letter(alloc, err, b"-B and -", *letter, b" don't go together");
        }
        ArgumentFault::OptionAfterPath(word) => {
            report_line(alloc, err, &[b"Option after a path: ", word.as_bytes()]);
        }
        ArgumentFault::PathsAndInput => report_line(alloc, err, &[b"-0 takes no paths"]),
        ArgumentFault::NoPath => {
            report_line(alloc, err, &[b"No path"]);
            send_parts(err, &[USAGE]);
        }
        ArgumentFault::NoSymbol => {
            report_line(
                alloc,
                err,
                &[b"No symbol; -k decides constants alone, -s lists names"],
            );
            send_parts(err, &[USAGE]);
        }
        ArgumentFault::OutOfMemory => report_line(alloc, err, &[b"Out of memory"]),
    }
}

/// Writes the message of an option with a relation that gives no least value.
fn report_bad_relation<E: Write>(alloc: Global, err: &mut Watched<E>, word: &[u8])
    ensures { Sends (stream_of E.contents err.old) (stream_of E.contents err.new)
        (line_of (codes "Bad symbol: " ++ word.now ++ relation_advice word.now)) }
{
    report_line(
        alloc,
        err,
        &[
            b"Bad symbol: ",
            word,
            b"; only a least number is taken: write -D'",
            symbol_in(word),
            b">=N'",
        ],
    );
}

/// Writes the message of a fault of an argument of `-g`.
fn report_bad_pattern<E: Write>(
    alloc: Global,
    err: &mut Watched<E>,
    text: &[u8],
    fault: PatternFault,
)
    ensures { Sends (stream_of E.contents err.old) (stream_of E.contents err.new)
        (line_of (codes "Bad pattern: " ++ text.now ++ pattern_advice fault text.now)) }
{
    match fault {
        PatternFault::Empty => report_line(
            alloc,
            err,
            &[
                BAD_PATTERN,
                text,
                b"; no name is empty: write * for all names",
            ],
        ),
        PatternFault::Anchored => report_line(
            alloc,
            err,
            &[
                BAD_PATTERN,
                text,
                b"; patterns are matched below each path: write ",
                sign_of(text),
                bare(after_sign(text)),
            ],
        ),
        PatternFault::DoubleStar => report_line(
            alloc,
            err,
            &[
                BAD_PATTERN,
                text,
                b"; write * for **, or a name alone for any directory",
            ],
        ),
        PatternFault::SlashAtEnd => report_line(
            alloc,
            err,
            &[
                BAD_PATTERN,
                text,
                b"; only ! takes a slash at the end: write ",
                text,
                b"*",
            ],
        ),
    }
}

/// Returns the exit mode in an argument of `-x`, which may have the option before it.
fn mode_of(word: &[u8]) -> &[u8]
    ensures { result.now ≡ mode_of word.now }
{
    if word.starts_with(b"-x") {
        return &word[2..];
    }
    word
}

/// Returns the name of a symbol in an option as one word.
fn symbol_in(word: &[u8]) -> &[u8]
    ensures { result.now ≡ symbol_in word.now }
{
    match word {
        [_, _, argument @ ..] => &argument[..word_len(argument)],
        _ => b"",
    }
}

/// Returns what to use instead of an option of unifdef(1), version 2.12, that isn't one here.
fn in_its_place(letter: char) -> &'static [u8]
    ensures { result.now ≡ in_its_place letter }
{
    match letter {
        'e' => b": what can't be edited is left as it is, and named",
        'f' => b": each symbol is an option -D or -U",
        'I' => b": included files are not read",
        'M' => b": -d prints a diff with which patch -R undoes the run",
        'm' => b": files are changed in place without it",
        'o' => b": files are changed in place; unifdef writes to its output",
        'S' => b": -s lists the symbols with their numbers",
        '-' => b": each option is one letter; -n shows what would change",
        _ => b"",
    }
}

/// Writes a message with a letter between two texts.
fn report_letter<E: Write>(
    alloc: Global,
    err: &mut Watched<E>,
    before: &[u8],
    letter: char,
    after: &[u8],
)
    ensures { Sends (stream_of E.contents err.old) (stream_of E.contents err.new)
        (line_of (before.now ++ encode_utf8 letter ++ after.now)) }
{
    let mut buffer = [0; 4];
    let bytes = letter.encode_utf8(&mut buffer).as_bytes();
    report_line(alloc, err, &[before, bytes, after]);
}
