//! A call of a directory, for a `History`.

use crate::directory::CreateError;
use crate::node::{Lookup, Sample};
use crate::stat::FileStat;

/// A call made by a walk over directories, with its answer.
#[derive(Clone, Copy, Drop)]
pub enum DirectoryWalk<'a> {
    /// The path was looked at.
    Met {
        path: &'a [u8],
        answer: Lookup,
    },
    /// The path was found to lead to a directory, or not.
    Followed {
        path: &'a [u8],
        answer: bool,
    },
    /// These are all the names in a directory, or some of them.
    Listed {
        directory: &'a [u8],
        names: &'a [Vec<u8>],
        answer: bool,
    },
}

/// A call of a directory with its answer.
#[derive(Clone, Copy, Drop)]
pub enum DirectoryCall<'a> {
    /// A file was read as `text`, or reading it failed.
    Read {
        name: &'a [u8],
        text: &'a [u8],
        answer: Option<FileStat>,
    },
    /// The user was found to have write permission for the file, or not.
    OpenToWrite {
        name: &'a [u8],
        answer: bool,
    },
    /// An empty file was created, or not.
    Create {
        name: &'a [u8],
        answer: Result<(), CreateError>,
    },
    /// So many first bytes of `bytes` were appended, or none.
    Append {
        name: &'a [u8],
        bytes: &'a [u8],
        answer: Option<usize>,
    },
    /// A file was given the mode and the owner of `like`, or not.
    SetModeAndOwner {
        name: &'a [u8],
        like: FileStat,
        answer: bool,
    },
    /// The bytes of a file reached the disk, or not.
    Sync {
        name: &'a [u8],
        answer: bool,
    },
    /// A file was looked at.
    Look {
        name: &'a [u8],
        answer: Option<FileStat>,
    },
    /// The file `from` was renamed to `to`, or not.
    Rename {
        from: &'a [u8],
        to: &'a [u8],
        answer: bool,
    },
    /// A file now has `text`, or else any bytes.
    Overwrite {
        name: &'a [u8],
        text: &'a [u8],
        answer: bool,
    },
    /// A file was removed, or not.
    Remove {
        name: &'a [u8],
        answer: bool,
    },
    /// A file was read to be searched, and `text` is what was read of it.
    Sample {
        name: &'a [u8],
        text: &'a [u8],
        answer: Sample,
    },
    /// A walk made a call, which changes nothing.
    Walk(DirectoryWalk<'a>),
}
