//! Stretches of blank lines, and how many lines of each stay.

ghost use Rattle.std.specs.Prelude.{◌≡◌, ◌++◌, [], ◌∷◌, length, true, false, Bool, OnOk, IfOk};
ghost use Rattle.std.specs.Prelude.{replicate};
ghost use Rattle.ud_passes.specs.squeezing.SqueezedTexts as spec;
ghost use Rattle.ud_passes.specs.squeezing.SqueezedTexts.{parts, first_ones, stay_flags};
ghost use Rattle.ud_passes.specs.squeezing.SqueezedTexts.{begins_group, ends_group};
ghost use Rattle.ud_passes.specs.squeezing.Squeezing.{gaps_of};

use crate::squeezing::places::{Place, bare_place};
use std::alloc::{AllocError, Global};
use ud_model::Role;

/// Returns the length of the first part of a stretch.
fn first_part(stretch: &[Place]) -> usize
    ensures { (below : Bool) →
        result ≡ spec.first_part (parts 0 (gaps_of stretch.now) below) }
{
    let mut count = 0;
    for place in stretch {
        if place.gap {
            break;
        }
        count += 1;
    }
    count
}

/// Returns the length of the last part of a stretch; the line below has a gap before it or not.
fn last_part(stretch: &[Place], below: bool) -> usize
    ensures { result ≡ spec.last_part (parts 0 (gaps_of stretch.now) below) }
{
    let mut count = 0;
    for place in stretch {
        if place.gap {
            count = 0;
        }
        count += 1;
    }
    if below { 0 } else { count }
}

/// Returns the length of the longest part of a stretch; the line below has a gap before it or not.
fn longest_part(stretch: &[Place], below: bool) -> usize
    ensures { result ≡ spec.longest_part (parts 0 (gaps_of stretch.now) below) }
{
    let mut longest = 0;
    let mut count = 0;
    for place in stretch {
        if place.gap {
            longest = longest.max(count);
            count = 0;
        }
        count += 1;
    }
    longest.max(count)
}

/// Returns the length of a stretch that is one part, and else 0; the line below has a gap before it
/// or not.
fn only_part(stretch: &[Place], below: bool) -> usize
    ensures { result ≡ spec.only_part (parts 0 (gaps_of stretch.now) below) }
{
    let count = first_part(stretch);
    if below || count < stretch.len() {
        0
    } else {
        count
    }
}

/// Returns whether a group follows a directive with this role.
fn begins_group(role: Option<Role>) -> bool
    ensures { result ≡ begins_group role }
{
    matches!(
        role,
        Some(Role::IfGroup | Role::ElifGroup | Role::ElseGroup)
    )
}

/// Returns whether a directive with this role ends the group before it.
fn ends_group(role: Option<Role>) -> bool
    ensures { result ≡ ends_group role }
{
    matches!(
        role,
        Some(Role::ElifGroup | Role::ElseGroup | Role::EndifLine)
    )
}

/// Returns how many lines of a stretch stay between two lines.
fn left(above: Place, stretch: &[Place], below: Place) -> usize
    ensures { result ≡ spec.left above below (parts 0 (gaps_of stretch.now) below.gap) }
{
    if begins_group(above.role) && ends_group(below.role) {
        return only_part(stretch, below.gap);
    }
    if above.opens && below.closes {
        return first_part(stretch).min(last_part(stretch, below.gap));
    }
    if above.opens {
        return first_part(stretch);
    }
    if below.closes {
        return last_part(stretch, below.gap);
    }
    longest_part(stretch, below.gap)
}

/// Appends a flag so many times.
///
/// # Errors
/// Fails if memory runs out.
fn push_flags(flags: &mut Vec<bool>, count: usize, flag: bool) -> Result<(), AllocError>
    ensures { OnOk result (flags.new.items ≡ flags.old.items ++ replicate count flag) }
{
    for _line in 0..count {
        flags.push(flag)?;
    }
    Ok(())
}

/// Appends the flags of a stretch between two lines, and of the line below, which stays.
///
/// # Errors
/// Fails if memory runs out.
fn push_stretch(
    flags: &mut Vec<bool>,
    above: Place,
    stretch: &[Place],
    below: Place,
) -> Result<(), AllocError>
    ensures { OnOk result (flags.new.items ≡ flags.old.items ++
        (first_ones (length stretch.now)
        (spec.left above below (parts 0 (gaps_of stretch.now) below.gap)) ++ true ∷ [])) }
{
    let (count, stay) = (stretch.len(), left(above, stretch, below));
    push_flags(flags, stay.min(count), true)?;
    push_flags(flags, count.saturating_sub(stay), false)?;
    flags.push(true)?;
    Ok(())
}

/// Returns whether each of the lines stays. The last place is the end of the output.
///
/// # Errors
/// Fails if memory runs out.
pub(crate) fn stay_flags(alloc: Global, places: &[Place]) -> Result<Vec<bool>, AllocError>
    ensures { IfOk result (λ flags.
        flags.items ≡ stay_flags (spec.bare_place false true) [] places.now) }
{
    let mut flags = Vec::new(alloc);
    let mut above = bare_place(false, true);
    let mut start = 0;
    for at in 0..places.len() {
        let place = places[at];
        if place.blank {
            continue;
        }
        push_stretch(&mut flags, above, &places[start..at], place)?;
        above = place;
        start = at + 1;
    }
    Ok(flags)
}
