//! The output for each line: printers, and a lister of names instead of the text.
//!
//! A printer implements `show.Show`: `delete`, `blank` and `renumber`, or `complement` of one of
//! these. `printer` chooses one by the settings. It returns the `pieces` of a line. Its
//! `line_output` reports the output for lines that needn't be passed to it.
//!
//! A new printer needs an implementation of `Show`, with two ghost items for what it represents and
//! prints, and a variant of `Printer`.

mod append_bytes;
mod blank;
mod complement;
mod delete;
mod line_output;
mod lister;
mod pieces;
mod printer;
mod renumber;
mod show;

pub use blank::Blank;
pub use complement::Complement;
pub use delete::Delete;
pub use line_output::LineOutput;
pub use lister::Lister;
pub use pieces::Pieces;
pub use printer::Printer;
pub use renumber::Renumber;
pub use show::Show;
