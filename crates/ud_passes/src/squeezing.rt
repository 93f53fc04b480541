//! An output without the blank lines that only stood there because of lines that went.
//!
//! Each line of the output is read as a place: with a gap before it or not, blank or not. Each
//! stretch of blank lines gives a flag for each of its lines. By these flags the lines that stay
//! are copied. A line only goes if its scan shows that it is blank by itself, so no mark can make
//! another line go.
//!
//! `specs/squeezing/SqueezedTexts.antt` defines the squeezed text.

mod marks;
mod places;
mod stretches;
mod texts;

pub use texts::{Squeezed, squeeze};
