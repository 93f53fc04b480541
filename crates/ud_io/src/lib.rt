//! Readers and writers that record a failure, and functions that write all of some bytes.
//!
//! `specs/Watched.antt` defines what one call reads or writes, `specs/Buffering.antt` which bytes
//! are still on their way to a writer, and `specs/Streams.antt` what happens to bytes sent to a
//! writer, whether or not it has failed.
#![tactic(auto)]

mod watched;
mod write;

pub use watched::Watched;
pub use write::{send, send_parts, write_all};
