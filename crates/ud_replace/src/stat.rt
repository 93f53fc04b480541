//! The facts about a file, without its bytes.
//!
//! Two files are the same if they have one device and number, and were made at one time, if the
//! file system knows that. A file that is saved during the walk may get the number of one that is
//! gone. Directories aren't compared by time, since an overlay file system copies one when a file
//! is made in it.

ghost use Rattle.std.specs.Prelude.{◌≡◌};
ghost use Rattle.ud_replace.specs.Stats.{is_of, has_facts_of};

use crate::node::FileId;

/// A point in time.
#[derive(Clone, Copy, Debug, PartialEq, Eq)]
pub struct FileTime {
    /// The seconds since the beginning of 1970, below 0 before that.
    pub seconds: i64,
    /// The nanoseconds since the last full second.
    pub nanoseconds: i64,
}

/// The identity and the state of a file. Equal versions are taken to have the same bytes.
#[derive(Clone, Copy, Debug, PartialEq, Eq)]
pub struct FileVersion {
    /// The number of the device.
    pub device: u64,
    /// The number of the file on that device.
    pub inode: u64,
    /// The number of bytes.
    pub size: u64,
    /// When the bytes last changed.
    pub modified: FileTime,
    /// When the bytes, the mode, the owner or the links last changed.
    pub changed: FileTime,
}

/// The facts that a directory gives about a file.
#[derive(Clone, Copy, Debug, PartialEq, Eq)]
pub struct FileStat {
    /// The identity and the state of the file.
    pub version: FileVersion,
    /// The number of names that the file has.
    pub links: u64,
    /// The permissions, as `chmod` takes them.
    pub mode: u32,
    /// The number of the user that owns the file.
    pub owner: u32,
    /// The number of the file's group.
    pub group: u32,
}

impl FileStat {
    /// Returns whether these are the facts about the file `id`, by its device and number.
    pub fn is_of(&self, id: FileId) -> bool
        ensures { result ≡ is_of id self.now }
    {
        self.version.device == id.device && self.version.inode == id.inode
    }

    /// Returns whether `seen` has the same mode, owner, group and number of links as these facts.
    pub fn has_facts_of(&self, seen: &FileStat) -> bool
        ensures { result ≡ has_facts_of self.now seen.now }
    {
        seen.mode == self.mode
            && seen.owner == self.owner
            && seen.group == self.group
            && seen.links == self.links
    }
}
