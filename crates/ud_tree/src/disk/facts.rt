//! The facts about what is at a path.

ghost use Rattle.std.specs.Prelude.{◌≡◌, ◌≢◌, MatchResult};
ghost use Rattle.ud_replace.specs.declared.node.NodeKind.{NodeKind};
ghost use Rattle.ud_tree.specs.Evidence.{AreFacts, Shown, is_same};

use std::io::{self, ErrorKind};
use ud_replace::{FileId, FileStat, FileTime, FileVersion, Node, NodeKind};

/// The facts that the system gives of a file, one for each method.
pub(crate) trait Attributes {
    /// The evidence of each fact.
    ghost shown: { Shown Self };

    /// Returns what it is.
    fn kind(&self) -> NodeKind
        ensures { shown.kind self.now result };

    /// Returns the number of its device.
    fn device(&self) -> u64
        ensures { shown.device self.now result };

    /// Returns its number on the device.
    fn inode(&self) -> u64
        ensures { shown.inode self.now result };

    /// Returns when it was created, in nanoseconds since the beginning of 1970; 0 if unknown.
    fn born(&self) -> u64
        ensures { shown.born self.now result };

    /// Returns the number of its bytes.
    fn byte_count(&self) -> u64
        ensures { shown.size self.now result };

    /// Returns when its bytes last changed.
    fn modified_at(&self) -> FileTime
        ensures { shown.modified self.now result };

    /// Returns when its bytes, mode, owner or links last changed.
    fn changed_at(&self) -> FileTime
        ensures { shown.changed self.now result };

    /// Returns the number of its names.
    fn links(&self) -> u64
        ensures { shown.links self.now result };

    /// Returns the bits of its mode that `chmod` sets.
    fn permissions(&self) -> u32
        ensures { shown.mode self.now result };

    /// Returns the number of its owner.
    fn owner(&self) -> u32
        ensures { shown.owner self.now result };

    /// Returns the number of its group.
    fn group(&self) -> u32
        ensures { shown.group self.now result };
}

/// The facts about what is at a path.
#[derive(Clone, Copy)]
pub struct Facts {
    /// Its kind and identity.
    pub node: Node,
    /// The other facts about it.
    pub stat: FileStat,
}

impl Facts {
    /// Returns the facts that the system gave.
    pub(crate) fn of<M: Attributes>(found: &M) -> Facts
        ensures { AreFacts M.shown found.now result }
    {
        let id = FileId {
            device: found.device(),
            inode: found.inode(),
            born: found.born(),
        };
        let version = FileVersion {
            device: id.device,
            inode: id.inode,
            size: found.byte_count(),
            modified: found.modified_at(),
            changed: found.changed_at(),
        };
        let stat = FileStat {
            version,
            links: found.links(),
            mode: found.permissions(),
            owner: found.owner(),
            group: found.group(),
        };
        let node = Node {
            kind: found.kind(),
            id,
        };
        Facts { node, stat }
    }

    /// Returns the facts about a regular file.
    ///
    /// # Errors
    /// Fails if it is none.
    pub(crate) fn regular(&self) -> io::Result<FileStat>
        ensures { MatchResult result
            (λ stat. (self.now.node.kind ≡ NodeKind.File) × (stat ≡ self.now.stat))
            (λ _. self.now.node.kind ≢ NodeKind.File) }
    {
        match self.node.kind {
            NodeKind::File => Ok(self.stat),
            NodeKind::Directory | NodeKind::Link | NodeKind::Other => {
                Err(io::Error::from(ErrorKind::Unsupported))
            }
        }
    }
}

/// Returns whether both are the same file or directory, by its device and number. An overlay file
/// system copies a directory when a file is created in it, which changes its time.
pub(crate) fn is_same(one: FileId, other: FileId) -> bool
    ensures { result ≡ is_same one other }
{
    one.device == other.device && one.inode == other.inode
}
