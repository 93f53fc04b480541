//! A text without the operands of its conditions that the symbols decide.
//!
//! The pass goes over a text line by line. Text lines are copied many at once. An `#if` or `#elif`
//! that joins no other line is edited if the edited line, by itself, is read as meant; else it
//! stays. So is the comment of an `#else` or `#endif`. Bytes are only removed.
//!
//! ud_simplified defines the rest of a condition (`ResidualTexts`) and of a line
//! (`SimplifiedTexts`). `specs/pruning/PrunedTexts.antt` defines the rest of a text with
//! lines of any length. `Cells.antt`, `EditedLines.antt` and `Passing.antt` beside it define what
//! the code keeps of a condition's text, of a line and of a text.

mod cells;
mod comments;
mod conditions;
mod laws;
mod left_texts;
mod lines;
mod texts;
mod tokens;

pub use laws::law_pruned_text;
pub(crate) use lines::{LineEditor, has_quote};
pub use texts::{Pruned, prune};
