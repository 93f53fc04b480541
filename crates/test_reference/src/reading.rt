//! Reading a text: a recursion over its groups and sections, which reads each line in the mode of
//! its group.

ghost use Rattle.std.specs.Prelude.{◌≡◌, ◌<◌, ◌≤◌, length, IfOk, IfSome, OnOk};
ghost use Rattle.ud_model.specs.text.Lines.{NoNewline};
ghost use Rattle.ud_model.specs.declared.limits.TheConstants.{MAX_LINE_BYTES, MAX_DEPTH};

use crate::classify_line::{ClassifiedLine, classify, list};
use crate::cutting::cut_line;
use crate::messages::{Fault, FaultyLine};
use crate::tree::{Group, Node, Section};
use std::alloc::{AllocError, Global};
use ud_cond::Symbols;
use ud_model::{MAX_DEPTH, MAX_LINE_BYTES, MAX_LINES, Mode, Role, Settings};
use ud_text::{Line, Scanner};

/// The state of reading a text.
#[derive(Drop)]
pub(crate) struct Reader<'a> {
    pub alloc: Global,
    pub settings: Settings,
    pub symbols: &'a Symbols,
    /// The rest of the text.
    pub rest: &'a [u8],
    pub scanner: Scanner,
    /// The lines that were read and aren't faulty, in order.
    pub lines_read: Vec<ClassifiedLine<'a>>,
    /// The first fault. Nothing is read after it.
    pub fault: Option<FaultyLine>,
    /// The number of the last line; 0 if none is read.
    pub last: u32,
    /// The line of the first directive of the innermost section that has no `#endif`.
    pub open: Option<u32>,
}

/// The nodes of a group or of the whole text, and the directive that ends it, if any.
#[derive(Drop)]
struct Position<'a> {
    nodes: Vec<Node>,
    closer: Option<ClassifiedLine<'a>>,
}

impl<'a> Reader<'a> {
    /// Reads the text up to its end or its first fault, and nests the lines before that.
    ///
    /// At the end, an open comment comes before an open section.
    pub(crate) fn read(&mut self) -> Result<Vec<Node>, AllocError> {
        let mode = if self.settings.plain {
            Mode::Plain
        } else {
            Mode::C
        };
        let Position { nodes, closer } = self.position(mode, 0)?;
        if let Some(line_read) = closer {
            self.record_fault(line_read.line.number, misplaced(line_read.role));
        }
        if self.scanner.in_comment() {
            self.record_fault(self.last, Fault::EofInComment);
        }
        if let Some(if_line) = self.open {
            self.record_fault(self.last, Fault::PrematureEof { if_line });
        }
        Ok(nodes)
    }

    /// Records the fault of a line. The first fault counts.
    fn record_fault(&mut self, line: u32, fault: Fault)
        ensures { self.new.rest ≡ self.old.rest }
    {
        self.fault = self.fault.or(Some(FaultyLine { line, fault }));
    }

    /// Returns the next line of the text; `None` at its end, after a fault, and if the line breaks
    /// a limit.
    fn next_line(&mut self) -> Option<Line<'a>>
        ensures one_line { IfSome result (λ line. NoNewline line.body.now) }
        ensures fits { IfSome result (λ line. length line.body.now ≤ MAX_LINE_BYTES) }
        ensures left { length self.new.rest.now ≤ length self.old.rest.now }
        ensures shorter { IfSome result
            (λ line. length self.new.rest.now < length self.old.rest.now) }
    {
        if self.fault.is_some() || self.rest.is_empty() {
            return None;
        }
        if self.last >= MAX_LINES {
            self.record_fault(MAX_LINES + 1, Fault::TooManyLines);
            return None;
        }
        let (line, rest) = cut_line(self.rest, self.last + 1);
        if line.body.len() + line.ending.len() > MAX_LINE_BYTES {
            self.record_fault(line.number, Fault::LineTooLong);
            return None;
        }
        self.rest = rest;
        self.last = line.number;
        Some(line)
    }

    /// Reads the next line in this mode, with `level` open sections. Returns `None` at the end of
    /// the text and at a fault.
    fn next(&mut self, mode: Mode, level: usize) -> Result<Option<ClassifiedLine<'a>>, AllocError>
        ensures left { length self.new.rest.now ≤ length self.old.rest.now }
        ensures shorter { IfOk result (λ line_read. IfSome line_read
            (λ r. length self.new.rest.now < length self.old.rest.now)) }
    {
        let Some(line) = self.next_line() else {
            return Ok(None);
        };
        let scan = self.scanner.read(mode, &line);
        let names = list(self.alloc, &scan, self.settings.listing, level)?;
        let Ok(line_read) = classify(line, &scan, self.symbols, self.settings, names) else {
            self.record_fault(line.number, Fault::Obfuscated);
            return Ok(None);
        };
        Ok(Some(line_read))
    }

    /// Reads nodes with `level` open sections, up to a directive that ends their group, to the end
    /// of the text or to a fault.
    #[cycle(reading)]
    fn position(&mut self, mode: Mode, level: usize) -> Result<Position<'a>, AllocError>
        requires { level ≤ MAX_DEPTH }
        ensures left { OnOk result (length self.new.rest.now ≤ length self.old.rest.now) }
        ensures shorter { IfOk result (λ position. IfSome position.closer
            (λ r. length self.new.rest.now < length self.old.rest.now)) }
    {
        let mut nodes = Vec::new(self.alloc);
        'lines: while let Some(line_read) = self.next(mode, level)? {
            match line_read.role {
                None => {
                    self.lines_read.push(line_read)?;
                    nodes.push(Node::Text)?;
                }
                Some(Role::IfGroup) if level == MAX_DEPTH => {
                    self.record_fault(line_read.line.number, Fault::TooManyLevels);
                }
                Some(Role::IfGroup) => {
                    nodes.push(Node::Section(self.section(line_read, mode, level)?))?;
                }
                Some(Role::ElifGroup | Role::ElseGroup | Role::EndifLine) => {
                    return Ok(Position {
                        nodes,
                        closer: Some(line_read),
                    });
                }
            }
        }
        Ok(Position {
            nodes,
            closer: None,
        })
    }

    /// Reads a section after its first directive.
    #[cycle(reading)]
    fn section(
        &mut self,
        first: ClassifiedLine<'a>,
        mode: Mode,
        level: usize,
    ) -> Result<Section, AllocError>
        requires { level < MAX_DEPTH }
        ensures left { OnOk result (length self.new.rest.now ≤ length self.old.rest.now) }
    {
        let if_line = first.line.number;
        let mode = if first.ignoring { Mode::Plain } else { mode };
        let mut groups = Vec::new(self.alloc);
        let mut line_read = first;
        'groups: loop {
            let (role, cond) = (line_read.role, line_read.cond);
            self.lines_read.push(line_read)?;
            let Position { nodes, closer } = self.position(mode, level + 1)?;
            groups.push(Group { role, cond, nodes })?;
            let Some(next) = closer else {
                self.open = self.open.or(Some(if_line));
                return Ok(Section {
                    groups,
                    is_closed: false,
                });
            };
            if next.role == Some(Role::EndifLine) {
                self.lines_read.push(next)?;
                return Ok(Section {
                    groups,
                    is_closed: true,
                });
            }
            if role == Some(Role::ElseGroup) {
                self.record_fault(next.line.number, misplaced(next.role));
                return Ok(Section {
                    groups,
                    is_closed: false,
                });
            }
            line_read = next;
        }
    }
}

/// Returns the fault of a misplaced directive.
fn misplaced(role: Option<Role>) -> Fault {
    match role {
        Some(Role::ElifGroup) => Fault::InappropriateElif,
        Some(Role::ElseGroup) => Fault::InappropriateElse,
        _ => Fault::InappropriateEndif,
    }
}
