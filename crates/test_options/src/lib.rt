//! Checks of what users of unifdef's options may rely on, by runs of the tool over memory.
//!
//! A check runs the tool twice or more on the text of a case, under arguments that differ in a
//! known way, and compares the outputs with each other and with the lines of the text. Nothing is
//! decided here of conditions or sections. `law_list_is_complete`, `law_answer_in_place` and
//! `law_answer_complement` of `ud_model` are what the checks look at once more, by other means.
//!
//! A further check is a function from a case to a `Finding`, a name in `CHECKS`, and its place in
//! `findings`. Contracts give here what safety needs, and nothing of the meaning.
#![tactic(auto)]

mod arguments;
mod blanked;
mod finding;
mod lines;
mod listed;
mod runs;
mod shared;

pub use finding::{CHECKS, Finding, findings};
