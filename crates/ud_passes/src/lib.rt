//! Passes over a whole text: names of conditions, conditions that remain, and pruned texts.
//!
//! Each pass goes over a text by the same walk (`walk.rt`): line by line, and many text lines at
//! once. `specs/Walks.antt` defines how far a walk has come, and `specs/Passes.antt` what all
//! passes share.
//!
//! - `Names` keeps the files' lists of names, and the conditions that can't be listed in full.
//! - `Remaining` keeps the conditions that still name a symbol of the options.
//! - `prune` returns a text without the operands of its conditions that the symbols decide.
//! - `fold` returns a text with each conditional directive on one line, and `restore` goes back.
//! - `is_untouched` tells most texts that `fold` and `prune` leave as they are.
//! - `squeeze` leaves out the blank lines that only stood there because of lines that went.
//!
//! Besides, `unified_diff` returns the diff of two texts.
#![tactic(auto)]

mod diff;
mod folding;
mod lines;
mod names;
mod pruning;
mod remaining;
mod squeezing;
mod untouched;
mod walk;

pub use diff::{EDITED, SAME, unified_diff};
pub use folding::{fold, restore};
pub use names::Names;
pub use pruning::{Pruned, law_pruned_text, prune};
pub use remaining::{Listing, Remaining};
pub use squeezing::{Squeezed, squeeze};
pub use untouched::is_untouched;
