//! The properties of a line that are kept once the line is read.

ghost use Rattle.std.specs.Prelude.{◌+◌, ◌≤◌, length};
ghost use Rattle.ud_model.specs.declared.limits.TheConstants.{MAX_LINE_BYTES};

use std::alloc::{AllocError, Global};
use ud_cond::{Answer, Rules, Symbols, condition};
use ud_model::{Cond, Listing, Role, Settings};
use ud_sections::{Cut, Directive, Lister, Span, directive};
use ud_text::{Line, Scan};

/// A line of the text, with its properties.
#[derive(Drop)]
pub(crate) struct ClassifiedLine<'a> {
    pub line: Line<'a>,
    /// The role of its directive in the section, if the line has one.
    pub role: Option<Role>,
    /// The value of its condition; true for an `#else`.
    pub cond: Cond,
    /// True if the line opens a section that is plain text.
    pub ignoring: bool,
    /// The span of its keyword in the body; 0 and 0 for a text line.
    pub keyword: Span,
    /// True if the line is joined to the line before or after.
    pub spans: bool,
    /// True if the line is joined to the line before.
    pub joins_before: bool,
    /// The output of a listing for the line.
    pub names: Vec<u8>,
    ghost held: { keyword.at + keyword.len ≤ length line.body.now },
}

/// The answer for a condition of which nothing is known.
const UNDECIDED: Answer = Answer {
    cond: Cond::Unknown,
    ignoring: false,
};

/// Returns the row of a line with this scan and these names.
///
/// # Errors
/// Fails if the keyword of its directive can't be known.
pub(crate) fn classify<'a>(
    line: Line<'a>,
    scan: &Scan<'_>,
    symbols: &Symbols,
    settings: Settings,
    names: Vec<u8>,
) -> Result<ClassifiedLine<'a>, Cut>
    requires masked { length scan.now.masked.now ≤ length line.body.now }
    requires fits { length line.body.now ≤ MAX_LINE_BYTES }
{
    let (role, keyword, answer) = match directive(scan)? {
        None => (None, Span { at: 0, len: 0 }, UNDECIDED),
        Some(found) => (
            Some(found.kind.role()),
            found.keyword,
            decide(scan, &found, symbols, settings),
        ),
    };
    Ok(ClassifiedLine {
        line,
        role,
        cond: answer.cond,
        ignoring: answer.ignoring,
        keyword,
        spans: scan.joins_before || scan.joins_after,
        joins_before: scan.joins_before,
        names,
    })
}

/// Decides the condition of a directive.
///
/// An `#else` is true, and a directive that a continuation cuts is unknown. A directive that joins
/// the next line opens no plain section.
fn decide(scan: &Scan<'_>, found: &Directive<'_>, symbols: &Symbols, settings: Settings) -> Answer
    requires fits { length found.now.after.now ≤ MAX_LINE_BYTES }
{
    if found.kind.role() == Role::ElseGroup {
        return Answer {
            cond: Cond::Yes,
            ignoring: false,
        };
    }
    if found.broken {
        return UNDECIDED;
    }
    let answer = condition(found.kind, found.after, symbols, Rules::of(settings));
    Answer {
        cond: answer.cond,
        ignoring: answer.ignoring && !scan.joins_after,
    }
}

/// Returns what a listing prints for a line with this scan, in `level` open sections.
pub(crate) fn list(
    alloc: Global,
    scan: &Scan<'_>,
    listing: Listing,
    level: usize,
) -> Result<Vec<u8>, AllocError>
    requires fits { length scan.now.masked.now ≤ MAX_LINE_BYTES }
{
    let mut names = Vec::new(alloc);
    let mut lister = match listing {
        Listing::Off => return Ok(names),
        Listing::Names => Lister::new(false),
        Listing::Depths => Lister::new(true),
    };
    let depth = match directive(scan) {
        Ok(Some(found)) if found.kind.role() == Role::ElifGroup => level.saturating_sub(1),
        _ => level,
    };
    for name in Lister::names(scan) {
        names.extend_from_slice(lister.prefix(depth))?;
        names.extend_from_slice(name)?;
        names.push(b'\n')?;
    }
    Ok(names)
}
