//! Scans the lines of a text, one after the other.

pub(crate) mod lexer;
mod marks;
mod scanner;

pub use marks::first_mark;
pub use scanner::{Scanner, law_same_scans};
