//! The lines that may name a symbol: conditions, definitions, and the ends of groups.

ghost use Rattle.std.specs.Prelude.{◌≡◌, ℕ, List, ◌++◌, IfOk, OnOk, None};
ghost use Rattle.ud_model.specs.aids.LineViews.{as_line, as_scan};
ghost use Rattle.ud_model.specs.conditions.Table.{Argument};
ghost use Rattle.ud_model.specs.declared.kind.Mode.{Mode};
ghost use Rattle.ud_cond.specs.symbols.SymbolTable.{TableRepresents};
ghost use Rattle.ud_sections.specs.directives.ParsedDirectives.{as_directive};
ghost use Rattle.ud_passes.specs.remaining.Definitions.{is_definition};
ghost use Rattle.ud_passes.specs.remaining.Mentions.{class_of, shown_after, shown_line, mention_at};
ghost use Rattle.ud_passes.specs.Walks.{reading_at};
ghost use Rattle.ud_passes.specs.remaining.Searches.{as_mention, begun_as, ExtendsMention};

use crate::remaining::definitions::defines;
use std::alloc::AllocError;
use ud_cond::Symbols;
use ud_model::{Kind, Line, Scan};
use ud_sections::{Directive, directive};

/// The part of a line that may name a symbol.
#[derive(Clone, Copy)]
pub(crate) enum Class {
    /// The condition of a directive of this kind.
    Condition(Kind),
    /// The name in a `#define` or `#undef`.
    Definition,
    /// The text after an `#else` or `#endif`.
    Closing,
}

/// A mention whose logical line may go on, without its text.
#[derive(Clone, Copy)]
pub(crate) struct Begun<'t> {
    /// The number of the line it begins on.
    pub(crate) number: usize,
    /// The body of that line.
    pub(crate) body: &'t [u8],
    /// That line is joined to a neighbour.
    pub(crate) is_spanning: bool,
    /// The part of the line that may name a symbol.
    pub(crate) class: Class,
}

/// Returns the class of a directive of this kind.
fn class_of(kind: Kind) -> Class
    ensures { result ≡ class_of kind }
{
    match kind {
        Kind::Else | Kind::Endif => Class::Closing,
        _ => Class::Condition(kind),
    }
}

/// Returns what follows the keyword of a directive: masked, but as it is at the end of a group.
fn shown_after<'a>(
    scan: &Scan<'_>,
    line: &Line<'a>,
    found: &Directive<'a>,
    class: Class,
) -> &'a [u8]
    ensures { (mode : Mode) (n : ℕ) → result.now ≡
        shown_after (reading_at mode (as_line line.now) (as_scan scan.now) n)
        (as_directive found.now) class }
{
    if let Class::Closing = class {
        let at = scan.masked.len().saturating_sub(found.after.len());
        return line.body.get(at..).unwrap_or(&[]);
    }
    found.after
}

/// Returns whether a line defines or undefines a symbol.
fn is_definition(scan: &Scan<'_>, line: &Line<'_>, symbols: &Symbols) -> bool
    ensures { (calls : List Argument) → TableRepresents symbols.now calls →
        (mode : Mode) (n : ℕ) → result ≡
        is_definition calls (reading_at mode (as_line line.now) (as_scan scan.now) n) }
{
    scan.fresh && defines(symbols, scan.masked) && defines(symbols, line.body)
}

/// Returns the mention of this class that begins on a line.
fn begun_on<'t>(scan: &Scan<'_>, line: &Line<'t>, number: usize, class: Class) -> Begun<'t>
    ensures { (mode : Mode) (after : List ℕ) → as_mention result after ≡
        mention_at (reading_at mode (as_line line.now) (as_scan scan.now) number) class after }
{
    Begun {
        number,
        body: line.body,
        is_spanning: scan.joins_before || scan.joins_after,
        class,
    }
}

/// Begins the mention on a line, if any.
///
/// # Errors
/// Fails if memory runs out.
fn begin<'t>(
    scan: &Scan<'_>,
    line: &Line<'t>,
    number: usize,
    symbols: &Symbols,
    after: &mut Vec<u8>,
) -> Result<Option<Begun<'t>>, AllocError>
    ensures { IfOk result (λ now. (calls : List Argument) → TableRepresents symbols.now calls →
        ExtendsMention calls line.now scan.now number None (begun_as now after.new.items)) }
{
    match directive(scan) {
        Err(_) => Ok(None),
        Ok(Some(found)) => {
            let class = class_of(found.kind);
            after.clear();
            after.extend_from_slice(shown_after(scan, &*line, &found, class))?;
            Ok(Some(begun_on(scan, line, number, class)))
        }
        Ok(None) => {
            if !is_definition(scan, line, symbols) {
                return Ok(None);
            }
            after.clear();
            Ok(Some(begun_on(scan, line, number, Class::Definition)))
        }
    }
}

/// Appends what a mention of this class shows of a line that continues it.
///
/// # Errors
/// Fails if memory runs out.
fn append_shown(
    class: Class,
    scan: &Scan<'_>,
    line: &Line<'_>,
    after: &mut Vec<u8>,
) -> Result<(), AllocError>
    ensures { OnOk result ((mode : Mode) (n : ℕ) → after.new.items ≡ after.old.items ++
        shown_line class (reading_at mode (as_line line.now) (as_scan scan.now) n)) }
{
    if let Class::Closing = class {
        after.push(b' ')?;
        return after.extend_from_slice(line.body);
    }
    after.extend_from_slice(scan.masked)
}

/// Takes a line that fits: as part of the mention that has begun, or else as a line that may begin
/// one. `after` is the mention's text.
///
/// # Errors
/// Fails if memory runs out.
pub(crate) fn take_line<'t>(
    begun: Option<Begun<'t>>,
    scan: &Scan<'_>,
    line: &Line<'t>,
    number: usize,
    symbols: &Symbols,
    after: &mut Vec<u8>,
) -> Result<Option<Begun<'t>>, AllocError>
    ensures { IfOk result (λ now. (calls : List Argument) → TableRepresents symbols.now calls →
        ExtendsMention calls line.now scan.now number (begun_as begun.entry after.old.items)
        (begun_as now after.new.items)) }
{
    if let Some(mention) = begun {
        append_shown(mention.class, scan, line, after)?;
        return Ok(Some(mention));
    }
    begin(scan, line, number, symbols, after)
}
