//! A text with each conditional directive on one line, and the way back.
//!
//! `fold` replaces each newline that continues such a directive by a vertical tab, and `restore`
//! puts the newlines back. In between, a directive is on one line, so a pass that goes line by line
//! reads it whole. A directive that can't be read so stays as it is.
//!
//! ud_simplified defines both texts (`FoldedTexts`). `specs/folding` has what the code keeps of a
//! logical line (`LogicalLines.antt`) and of a text (`Folding.antt`).

mod logical;
mod restored;
mod shown;
mod texts;

pub(crate) use logical::begins;
pub(crate) use restored::append_restored_line;
pub use restored::restore;
pub(crate) use shown::VERTICAL_TAB;
pub use texts::fold;
