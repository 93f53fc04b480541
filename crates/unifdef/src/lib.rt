//! unifdef(1) as a library, over a reader and two writers.
//!
//! `tool` is the whole tool. ud_args parses its arguments, ud_engine processes the text and writes
//! the output, and `diagnostics` reports errors and returns the exit status. For callers that have
//! a text in chunks, this crate also exports parts of ud_args and ud_engine:
//!
//! - `plan` parses arguments, and fails if the program would (`Usage`). `input_of` returns which
//!   argument names the input.
//! - `run` feeds a whole reader to the engine of a `Plan`, and writes the output to a writer. It
//!   returns whether some line was printed differently, or why the run ended early
//!   (`RunFault`).
//! - `Engine` is fed chunk by chunk, and prints by any `Show` of ud_sections. Each `feed` writes
//!   the output for the whole lines so far before it returns.
//! - `Watched` wraps a reader or a writer, and records whether a call has failed.
//!
//! Only `plan`, and so `tool`, needs memory, for the symbols. docs/LIBRARY.md has examples.
#![tactic(auto)]

mod diagnostics;
mod laws;
mod running;

pub use diagnostics::{EXIT_TROUBLE, final_result, report_result, report_usage, status_by};
pub use laws::law_failed_streams;
pub use running::tool;
pub use ud_args::{Plan, Usage, input_of, plan};
pub use ud_engine::{Engine, RunFault, Watched, run};
