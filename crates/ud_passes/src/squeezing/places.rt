//! The lines of an output, as far as blank lines go.

ghost use Rattle.std.specs.Prelude.{◌≡◌, ◌<◌, ℕ, List, [], length, reverse, IfOk, false};
ghost use Rattle.ud_model.specs.text.Bytes.{skip_white, starts_with_byte};
ghost use Rattle.ud_model.specs.aids.LineViews.{as_scan};
ghost use Rattle.ud_model.specs.aids.ReadAs.{read_as};
ghost use Rattle.ud_model.specs.sections.Directives.{content_of};
ghost use Rattle.ud_model.specs.declared.kind.Mode.TheVariants.{C};
ghost use Rattle.ud_passes.specs.squeezing.SqueezedTexts as spec;
ghost use Rattle.ud_passes.specs.squeezing.SqueezedTexts.{role_in, scanned_place, bare_place};
ghost use Rattle.ud_passes.specs.squeezing.Squeezing.{Placed};

use crate::squeezing::marks::{after_stay, is_gap};
use crate::walk::{Stretch, Walk};
use std::alloc::{AllocError, Global};
use ud_model::bytes::{is_white, skip_white};
use ud_model::{Line, Mode, Role, Scan};
use ud_sections::directive;
use ud_text::LineStore;

/// A line of an output, or its beginning or end.
#[derive(Clone, Copy)]
pub(crate) struct Place {
    /// True if lines of the input went right before it.
    pub(crate) gap: bool,
    /// True if the line is blank and joins no other line.
    pub(crate) blank: bool,
    /// True if the line opens a block, and at the beginning of the output.
    pub(crate) opens: bool,
    /// True if the line closes a block, and at the end of the output.
    pub(crate) closes: bool,
    /// The role of the line's directive.
    pub(crate) role: Option<Role>,
}

/// Returns whether the last byte of a masked line, but for white space, is `{`.
fn opens_block(masked: &[u8]) -> bool
    ensures { result ≡ starts_with_byte 123 (skip_white (reverse masked.now)) }
{
    let mut rest = masked;
    while let Some((last, before)) = rest.split_last() {
        if !is_white(*last) {
            return *last == b'{';
        }
        rest = before;
    }
    false
}

/// Returns the role of a line's directive.
fn role_in(scan: &Scan<'_>) -> Option<Role>
    ensures { result ≡ role_in (content_of (as_scan scan.now)) }
{
    match directive(scan) {
        Ok(Some(found)) => Some(found.kind.role()),
        _ => None,
    }
}

/// Returns the place of a line, by its scan.
#[tactic(auto, using(crate::proofs::SqueezeLemmas::place_steps))]
fn place_of(gap: bool, line: &Line<'_>, scan: &Scan<'_>) -> Place
    ensures { result ≡ scanned_place gap line.now.body.now (as_scan scan.now) }
{
    let trimmed = skip_white(scan.masked);
    Place {
        gap,
        blank: line.body.is_empty() && !(scan.joins_before || scan.joins_after),
        opens: opens_block(trimmed),
        closes: trimmed.first() == Some(&b'}'),
        role: if trimmed.first() == Some(&b'#') {
            role_in(scan)
        } else {
            None
        },
    }
}

/// Takes the next line, with the marks from it on, and appends its place. Returns the marks after
/// it.
///
/// # Errors
/// Fails if memory runs out.
fn step<'m>(
    walk: &mut Walk<'_>,
    masked: &mut LineStore,
    marks: &'m [u8],
    places: &mut Vec<Place>,
) -> Result<&'m [u8], AllocError>
    requires some { 0 < length walk.old.rest.now }
    ensures shorter { length walk.new.rest.now < length walk.old.rest.now }
    ensures placed { IfOk result (λ left. (text ms : List ℕ) →
        Placed text ms walk.old marks.now places.old.items →
        Placed text ms walk.new left.now places.new.items) }
{
    let gap = is_gap(marks);
    match walk.next_within(Mode::C, 0, masked) {
        Stretch::Texts(_) => Ok(marks),
        Stretch::TooLong(_) => {
            places.push(bare_place(gap, false))?;
            Ok(after_stay(marks))
        }
        Stretch::Fitting(line, scan) => {
            places.push(place_of(gap, &line, &scan))?;
            Ok(after_stay(marks))
        }
    }
}

/// Returns the place of a line over the limit or, if it is an edge, the beginning or the end of an
/// output.
pub(crate) fn bare_place(gap: bool, edge: bool) -> Place
    ensures { result ≡ bare_place gap edge }
{
    Place {
        gap,
        blank: false,
        opens: edge,
        closes: edge,
        role: None,
    }
}

/// Returns the places of the lines of an output, and its end. The marks are those of the lines of
/// the input.
///
/// # Errors
/// Fails if memory runs out.
pub(crate) fn places_in(alloc: Global, text: &[u8], marks: &[u8]) -> Result<Vec<Place>, AllocError>
    ensures { IfOk result (λ places.
        places.items ≡ spec.places marks.now (read_as C text.now)) }
{
    let mut masked = LineStore::new(alloc)?;
    let mut walk = Walk::new(text);
    let mut left = marks;
    let mut places = Vec::new(alloc);
    'lines: while !walk.is_at_end() {
        left = step(&mut walk, &mut masked, left, &mut places)?;
    }
    places.push(bare_place(is_gap(left), true))?;
    Ok(places)
}
