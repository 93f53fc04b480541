//! Replaces one file of a tree by the output for it.
//!
//! `replace` makes one call of a `Directory` after another: to read a file, to create another one
//! beside it, and to rename that one over the file. The `Directory` records each call with its
//! answer, and the contract of `replace` states which calls are made (`specs/Replacing.antt`),
//! whatever the system answers. `law_old_or_new` states what they do to the files if the answers
//! are true.
//!
//! This crate makes no system calls itself. The types that implement `Directory` do.
#![tactic(auto)]

mod append;
mod call;
mod directory;
mod error;
mod folded_marks;
mod history;
mod kept;
mod laws;
mod line_marks;
mod marked;
mod node;
mod outcome;
mod printing;
mod replacement;
mod stat;
mod text_plan;

pub use call::{DirectoryCall, DirectoryWalk};
pub use directory::{CreateError, Directory};
pub use error::{ReplaceError, Update};
pub use history::History;
pub use kept::Kept;
pub use laws::{law_old_or_new, law_one_rename, law_one_text_outcome};
pub use node::{FileId, Lookup, Node, NodeKind, Sample};
pub use outcome::{Outcome, folded, may_fold, run_over};
pub use replacement::{Target, replace, replace_keeping};
pub use stat::{FileStat, FileTime, FileVersion};
pub use text_plan::TextPlan;
