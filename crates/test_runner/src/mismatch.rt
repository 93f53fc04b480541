//! A run whose outcome isn't the expected one.

use crate::outcome::Outcome;
use std::alloc::{AllocError, Global};
use std::fmt;

/// The way in which a case was run.
#[derive(Clone, Copy)]
pub(crate) enum Way {
    /// Streams that behave as the file says.
    AsStated,
    /// Reads of at most so many bytes.
    Reads(usize),
    /// A run of the reference.
    Reference,
    /// The first `len` bytes of the input, in two reads that are cut at `cut`.
    Cut { len: usize, cut: usize },
    /// The read after so many bytes fails, or is interrupted.
    ReadFails(usize),
    /// The output accepts so many bytes.
    WriteFails(usize),
    /// The flush is interrupted.
    FlushFails,
    /// An engine whose output accepts so many bytes isn't fused.
    Fused(usize),
    /// A second run, over the output of the first.
    Again,
}

impl fmt::Display for Way {
    fn fmt<W: fmt::Write>(&self, f: &mut fmt::Formatter<W>) -> fmt::Result {
        match *self {
            Way::AsStated => f.write_str("as stated"),
            Way::Reads(step) => write!(f, "in reads of {step} bytes"),
            Way::Reference => f.write_str("by the reference"),
            Way::Cut { len, cut } => write!(f, "{len} bytes, cut at {cut}"),
            Way::ReadFails(place) => write!(f, "the read after {place} bytes fails"),
            Way::WriteFails(room) => write!(f, "the output accepts {room} bytes"),
            Way::FlushFails => f.write_str("the flush fails"),
            Way::Fused(room) => write!(f, "an engine fed again after {room} bytes of output"),
            Way::Again => f.write_str("over its own output"),
        }
    }
}

/// A run with an unexpected outcome.
#[derive(Drop)]
pub(crate) struct Mismatch {
    pub way: Way,
    pub wanted: Outcome,
    pub found: Outcome,
}

impl Mismatch {
    /// Compares the outcome of a run with the expected one.
    ///
    /// # Errors
    /// Fails if memory runs out.
    pub(crate) fn between(
        alloc: Global,
        way: Way,
        wanted: &Outcome,
        found: Outcome,
    ) -> Result<Option<Mismatch>, AllocError> {
        if wanted.is_met_by(&found) {
            return Ok(None);
        }
        let wanted = Outcome {
            reads: wanted.reads,
            writes: wanted.writes,
            flushes: wanted.flushes,
            ..Outcome::like(alloc, &wanted.answer)?
        };
        Ok(Some(Mismatch { way, wanted, found }))
    }
}

impl fmt::Display for Mismatch {
    fn fmt<W: fmt::Write>(&self, f: &mut fmt::Formatter<W>) -> fmt::Result {
        write!(
            f,
            "{}:\n  wanted {}\n  found {}",
            self.way, self.wanted, self.found
        )
    }
}
