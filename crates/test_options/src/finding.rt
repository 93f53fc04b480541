//! The checks of a case, and what they found.

use crate::blanked::check_places;
use crate::listed::check_unlisted;
use crate::shared::check_shares;
use std::alloc::{AllocError, Global};
use test_texts::Case;

/// The result of a check of a case.
#[derive(Clone, Copy, Debug, PartialEq, Eq)]
pub enum Finding {
    /// The check asks nothing of such a case.
    Skipped,
    Holds,
    Differs,
}

/// The names of the checks, in the order of their findings.
pub const CHECKS: [&str; 3] = [
    "an option for a name that isn't listed",
    "line for line under -b",
    "lines shared with the run under -c",
];

/// Returns what each check finds.
///
/// # Errors
/// Memory is refused.
pub fn findings(alloc: Global, case: &Case) -> Result<[Finding; 3], AllocError> {
    let unlisted = check_unlisted(alloc, case)?;
    let places = check_places(alloc, case)?;
    let shares = check_shares(alloc, case)?;
    Ok([unlisted, places, shares])
}
