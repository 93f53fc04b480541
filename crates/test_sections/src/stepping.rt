//! Lines read by a scanner and a machine, compared with their expected verdicts.

ghost use Rattle.std.specs.Prelude.{IsTrue};
ghost use Rattle.ud_model.specs.text.Lines.{NoNewline};

use memchr::memchr;
use std::alloc::{AllocError, Global};
use std::process::Abort;
use ud_args::{Plan, plan};
use ud_model::{MAX_LINE_BYTES, Mode, Verdict};
use ud_sections::{Machine, SectionFault, Step};
use ud_text::{Line, Scanner};

/// Returns the plan of these arguments, which are separated by spaces and have no fault.
pub(crate) fn planned(rt: &impl Abort, alloc: Global, args: &str) -> Result<Plan, AllocError> {
    let mut owned = Vec::new(alloc);
    for word in args.split_whitespace() {
        owned.push(String::from_str(alloc, word)?)?;
    }
    Ok(plan(alloc, owned.as_slice()).expect(rt, "the words have no fault"))
}

/// Appends bytes, repeated `count` times.
pub(crate) fn append_repeated(
    text: &mut Vec<u8>,
    unit: &[u8],
    count: usize,
) -> Result<(), AllocError> {
    for _ in 0..count {
        text.extend_from_slice(unit)?;
    }
    Ok(())
}

/// A machine, the scanner whose scans it gets, and the settings and symbols of the arguments.
#[derive(Drop)]
pub(crate) struct Stepper {
    plan: Plan,
    scanner: Scanner,
    machine: Machine,
    /// The number of the last line.
    last: u32,
}

impl Stepper {
    /// Returns a stepper before the first line, for arguments separated by spaces.
    pub(crate) fn new(rt: &impl Abort, alloc: Global, args: &str) -> Result<Stepper, AllocError> {
        let plan = planned(rt, alloc, args)?;
        let machine = Machine::new(plan.settings());
        Ok(Stepper {
            plan,
            scanner: Scanner::new(),
            machine,
            last: 0,
        })
    }

    /// Reads the next line, which has this body and ends in a newline.
    pub(crate) fn step(&mut self, rt: &impl Abort, body: &[u8]) -> Result<Step, SectionFault> {
        assert!(rt; body.len() < MAX_LINE_BYTES);
        assert!(rt; is_one_line(body));
        assert!(rt; self.last < 1_000_000);
        self.last += 1;
        let line = Line {
            body,
            ending: b"\n",
            number: self.last,
        };
        let scan = self.scanner.read(self.machine.mode(), &line);
        self.machine.step(&scan, &line, self.plan.symbols())
    }

    /// Reads the next lines, none of which is refused.
    pub(crate) fn read(&mut self, rt: &impl Abort, bodies: &[&[u8]]) {
        for body in bodies {
            assert!(rt;
                self.step(rt, body).is_ok(),
                "line {} is refused",
                self.last
            );
        }
    }

    /// Reads the next lines, and compares the letters of their verdicts.
    pub(crate) fn check(&mut self, rt: &impl Abort, bodies: &[&[u8]], letters: &str) {
        assert!(rt;
            bodies.len() == letters.len(),
            "not one letter a line: {letters}"
        );
        for (body, letter) in bodies.iter().zip(letters.chars()) {
            let found = self.next_letter(rt, body);
            assert!(rt;
                found == letter,
                "{found} at line {} for {letters}",
                self.last
            );
        }
    }

    /// Reads the next line. Returns the letter of its verdict, or `!` if it is refused.
    fn next_letter(&mut self, rt: &impl Abort, body: &[u8]) -> char {
        match self.step(rt, body) {
            Ok(step) => letter(step.verdict),
            Err(_) => '!',
        }
    }

    /// Reads the next line, which is refused for this fault.
    pub(crate) fn refuse(&mut self, rt: &impl Abort, body: &[u8], fault: SectionFault) {
        assert!(rt;
            self.step(rt, body) == Err(fault),
            "line {}: no {fault:?}",
            self.last
        );
    }

    /// Compares the result at the end of the text.
    pub(crate) fn finish(&self, rt: &impl Abort, expected: Result<(), SectionFault>) {
        let found = self.machine.finish(self.scanner.in_comment());
        assert!(rt;
            found == expected,
            "{found:?} at the end after line {}",
            self.last
        );
    }

    /// Compares the number of sections that are open.
    pub(crate) fn check_depth(&self, rt: &impl Abort, depth: usize) {
        assert_eq!(rt; self.machine.depth(), depth, "after line {}", self.last);
    }

    /// Compares the mode.
    pub(crate) fn check_mode(&self, rt: &impl Abort, mode: Mode) {
        assert!(rt;
            self.machine.mode() == mode,
            "the mode after line {}",
            self.last
        );
    }

    /// Skips text lines up to this number, and compares the letter of their verdict.
    pub(crate) fn check_text(&mut self, rt: &impl Abort, last: u32, expected: char) {
        self.last = last;
        assert_eq!(rt;
            letter(self.machine.step_text(last)),
            expected,
            "up to line {last}"
        );
    }
}

/// Returns whether these bytes have no newline.
pub(crate) fn is_one_line(body: &[u8]) -> bool
    ensures { IsTrue result → NoNewline body.now }
{
    match memchr(b'\n', body) {
        Some(_) => false,
        None => true,
    }
}

/// Returns the letter of a verdict.
fn letter(verdict: Verdict) -> char {
    match verdict {
        Verdict::Keep => 'k',
        Verdict::Remove => '-',
        Verdict::ToIf => 'i',
        Verdict::ToElse => 'e',
        Verdict::ToEndif => 'n',
    }
}
