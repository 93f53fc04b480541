//! Shared by tests: readers and writers over memory that count their calls and fail; long texts.
//!
//! Contracts state here what safety needs, and nothing of the bytes.
#![tactic(auto)]

mod counted;
mod sink;
mod source;
mod texts;

pub use counted::{CountedSink, CountedSource};
pub use sink::Sink;
pub use source::Source;
pub use texts::{nested, parted, repeated};
