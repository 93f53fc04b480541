//! Lines of a text from chunks of bytes, and the scan of each line.
//!
//! Lines and scans are defined in ud_model (`text.Lines`, `text.Scanning`).
//! `LinesState.LinesRepresent` relates a `Lines` to its text, and `ScannerState.ScannerRepresents`
//! a `Scanner` to its readings. `BulkScanning.SkipsText` relates a scanner to the many lines that
//! it skips at once.
#![tactic(auto)]

mod bulk;
mod lines;
mod scan;
mod searching;

pub use bulk::hash_sign::is_other_word;
pub use lines::{
    LineBuffer, LineStore, Lines, LongLineBuffer, ShortLineBuffer, Taken, TextFault, count_lines,
    line_in,
};
pub use scan::{Scanner, first_mark, law_same_scans};
pub use searching::last_line_start;
pub use ud_model::{CommentAt, Line, Scan};
