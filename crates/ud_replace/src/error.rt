//! What happened to a file.

use std::alloc::AllocError;
use thiserror::Error;
use ud_engine::RunFault;

/// The treatment of a file whose text has no fault.
#[derive(Clone, Copy, Debug, PartialEq, Eq)]
pub enum Update {
    /// The output is the text itself, so nothing was done.
    Unchanged,
    /// A file with the output now has the name.
    Replaced,
    /// The output was written into the file.
    WrittenInto,
}

/// The reason why a file wasn't replaced.
///
/// The file has its old bytes, except for `HalfWritten`. The texts of `Display` may change.
#[derive(Clone, Copy, Debug, PartialEq, Eq, Error)]
pub enum ReplaceError {
    /// The text has a fault.
    #[error("the text has a fault")]
    Text(RunFault),
    /// The file couldn't be read.
    #[error("the file can't be read")]
    Read,
    /// Memory for the output couldn't be allocated.
    #[error("out of memory")]
    OutOfMemory,
    /// The file is read-only.
    #[error("the file is read-only")]
    ReadOnly,
    /// The file has several links, and writing into it wasn't allowed.
    #[error("the file has several links")]
    SeveralLinks,
    /// The directory can't be written, and writing into the file wasn't allowed.
    #[error("the directory can't be written")]
    DirectoryDenied,
    /// The file isn't the one that was found, or has other bytes, another mode, another owner or
    /// other links than when it was read.
    #[error("the file was changed meanwhile")]
    ChangedMeanwhile,
    /// The new file's name is taken: another run is at work on this file, or was killed; which one
    /// can't be known.
    #[error("another run is at the file")]
    Locked,
    /// The output couldn't be written.
    #[error("the file can't be written")]
    Write,
    /// The new file couldn't be renamed over the old one, and writing into that wasn't allowed.
    #[error("the file can't be replaced")]
    NotRenamed,
    /// Neither the output nor, after that, the old bytes could be written into the file, which may
    /// have parts of either.
    #[error("the file is half written")]
    HalfWritten,
}

impl From<AllocError> for ReplaceError {
    ghost use Rattle.std.specs.Prelude.{◌≡◌};
    ghost use Rattle.ud_replace.specs.declared.error.ReplaceError.TheVariants.{OutOfMemory};

    ghost from_gives = { λ _ error. error ≡ OutOfMemory };

    fn from(_error: AllocError) -> ReplaceError {
        ReplaceError::OutOfMemory
    }
}
