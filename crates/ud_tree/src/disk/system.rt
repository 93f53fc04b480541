//! The calls of the system that a tree needs, one each.
//!
//! A call may answer anything. Its answer is evidence, which no other call gives: that a look at a
//! path found these facts, or that a file was created at a path. So a contract can say which calls
//! led to a result. A call that could do harm requires the evidence that makes it safe: a file is
//! opened after a look at its path, and a name is moved or removed after a look at it found the
//! open file.
//!
//! What is generic over `Looks` changes no file: what it opens can only be read.

ghost use Rattle.std.specs.Prelude.{◌≡◌, ◌≤◌, ◌<◌, IfErr, IfOk, OnErr, OnOk, length, MatchResult};
ghost use Rattle.std.specs.Prelude.{string_bytes, true};
ghost use Rattle.std.specs.IoError.{error_kind};
ghost use Rattle.std.specs.Io.{ReadsAtMost};
ghost use Rattle.std.specs.Io.KnownBytes.{ReadConsumes};
ghost use Rattle.ud_replace.specs.declared.node.NodeKind.{NodeKind};
ghost use Rattle.ud_tree.specs.Creating.{IsLeftOver};
ghost use Rattle.ud_tree.specs.Evidence.{Changing, LeadsTo, Looking};

use crate::disk::facts::Facts;
use std::alloc::{AllocError, Global};
use std::io::{self, ErrorKind, Read, Write};
use ud_replace::NodeKind;

/// The calls that only look at files. No call but `follow` returns the facts about what a link at
/// the end of a path leads to.
pub trait Looks {
    /// A file or a directory that is open for reading.
    type File: Read + Drop;

    /// The names in a directory.
    type Names: Drop;

    /// The evidence of these calls.
    ghost looking: { Looking Self.File Self.Names };

    /// Returns the facts about what is at a path.
    fn look(&self, path: &str) -> io::Result<Facts>
        ensures found { IfOk result (looking.looked path.now) }
        ensures nothing { IfErr result
            (λ e. error_kind e ≡ ErrorKind.NotFound → looking.lacks path.now) };

    /// Returns the facts about what a path leads to, if it is a link.
    fn follow(&self, path: &str) -> io::Result<Facts>
        ensures found { IfOk result (looking.followed path.now) }
        ensures failed { OnErr result (looking.unfollowed path.now) };

    /// Opens a regular file for reading.
    fn open(&self, path: &str, found: &Facts) -> io::Result<Self::File>
        requires regular { found.now.node.kind ≡ NodeKind.File }
        requires looked { looking.looked path.now found.now }
        ensures { IfOk result (λ file. looking.opened file path.now found.now) };

    /// Opens a directory.
    fn enter(&self, path: &str) -> io::Result<Self::File>
        ensures entered { IfOk result (λ file. looking.entered file path.now) }
        ensures closed { IfErr result
            (λ e. error_kind e ≡ ErrorKind.PermissionDenied → looking.closed path.now) };

    /// Returns the facts about an open file or directory.
    fn facts(&self, file: &Self::File) -> io::Result<Facts>
        ensures { IfOk result (looking.shows file.now) };

    /// Returns the path that leads into an open directory by its number, with a slash at its end.
    fn path_by_number(&self, alloc: Global, directory: &Self::File) -> Result<String, AllocError>
        ensures { IfOk result (λ path. looking.numbers directory.now (string_bytes path)) };

    /// Returns the names in a directory.
    fn names(&self, path: &str) -> io::Result<Self::Names>
        ensures { IfOk result (λ names. looking.lists names path.now) };

    /// Reads names, each ended by a NUL. Returns the number of bytes; 0 if there are no more names.
    /// The system refuses a buffer that a whole name may not fit into.
    fn read_names(&self, names: &mut Self::Names, buffer: &mut [u8]) -> io::Result<usize>
        requires whole { 4096 ≤ length buffer.old }
        ensures bound { ReadsAtMost result buffer.new }
        ensures bytes { ReadConsumes (looking.unread names.old) (looking.unread names.new) result
            buffer.new };
}

/// The calls that change files. A file that was there and a new one are of different types: a new
/// file is renamed, and one that was there is written into.
pub trait Changes: Looks {
    /// A file that was there, open for reading and writing.
    type Old: Read + Write + Drop;

    /// A file that `create` made.
    type New: Drop;

    /// The evidence of these calls. What is known of a file may no longer hold after a call that
    /// takes it as `&mut`.
    ghost changing: { Changing Self.Old Self.New };

    /// Opens a regular file for reading and writing, and keeps its bytes. Opened for writing alone,
    /// a pipe would wait for a reader.
    fn update(&self, path: &str, found: &Facts) -> io::Result<Self::Old>
        requires regular { found.now.node.kind ≡ NodeKind.File }
        requires looked { Self.looking.looked path.now found.now }
        ensures { IfOk result (λ file. changing.updates file path.now found.now) };

    /// Returns the facts about the file.
    fn old_facts(&self, file: &Self::Old) -> io::Result<Facts>
        ensures { IfOk result (changing.shows file.now) };

    /// Locks the file until it is closed. Returns whether that was done: false if another run has
    /// locked it.
    ///
    /// # Errors
    /// Fails if the file system has no locks.
    fn lock_old(&self, file: &mut Self::Old) -> io::Result<bool>
        ensures { MatchResult result (λ locked. locked ≡ true → changing.locks file.new)
            (λ _. changing.lacks_locks file.new) };

    /// Returns the facts about what is at a path, while the file is open.
    fn look_beside(&self, file: &Self::Old, path: &str) -> io::Result<Facts>
        ensures { IfOk result (changing.looks_beside file.now path.now) };

    /// Goes back to the start of the file. Bytes are written over its own from there on.
    fn rewind(&self, file: &mut Self::Old) -> io::Result<()>
        ensures { OnOk result (changing.starts file.new file.old) };

    /// Cuts off what follows the first `len` bytes.
    fn cut(&self, file: &mut Self::Old, len: u64) -> io::Result<()>
        ensures { OnOk result (changing.cuts file.old len file.new) };

    /// Waits until the bytes of the file are on the disk.
    fn sync_old(&self, file: &Self::Old) -> io::Result<()>
        ensures { OnOk result (changing.syncs file.now) };

    /// Removes a file that was left over.
    fn remove_left_over(&self, file: &Self::Old, path: &str) -> io::Result<()>
        requires { IsLeftOver changing path.now file.now }
        ensures { OnOk result (changing.removes path.now) };

    /// Creates an empty file, which only the user may read and write.
    ///
    /// # Errors
    /// Fails also if there is anything at the path.
    fn create(&self, path: &str) -> io::Result<Self::New>
        ensures { IfOk result (λ file. changing.creates file path.now) };

    /// Returns the facts about the new file.
    fn new_facts(&self, file: &Self::New) -> io::Result<Facts>
        ensures { IfOk result (changing.shows_new file.now) };

    /// Locks the new file, as `lock_old` does.
    fn lock_new(&self, file: &mut Self::New) -> io::Result<bool>
        ensures created { (path : _) → changing.creates file.old path →
            changing.creates file.new path }
        ensures locked { MatchResult result (λ locked. locked ≡ true → changing.locks_new file.new)
            (λ _. changing.is_lockless file.new) };

    /// Appends a prefix of `bytes` to the new file. Returns its length.
    fn append(&self, file: &mut Self::New, bytes: &[u8]) -> io::Result<usize>
        ensures count { IfOk result (λ n. n ≤ length bytes.now) }
        ensures appended { IfOk result (λ n. changing.appends file.old bytes.now n file.new) };

    /// Sets the owner of the new file, if any, and the group.
    fn set_owner(&self, file: &mut Self::New, owner: Option<u32>, group: u32) -> io::Result<()>
        ensures { changing.sets_owner file.new owner group result };

    /// Sets the mode of the new file.
    fn set_mode(&self, file: &Self::New, mode: u32) -> io::Result<()>
        ensures { OnOk result (changing.sets_mode file.now mode) };

    /// Waits until the bytes of the new file are on the disk.
    fn sync_new(&self, file: &Self::New) -> io::Result<()>
        ensures { OnOk result (changing.syncs_new file.now) };

    /// Gives the new file another path.
    fn rename(&self, file: &Self::New, from: &str, to: &str) -> io::Result<()>
        requires { LeadsTo Self.looking changing.shows_new from.now file.now }
        ensures { OnOk result (changing.renames from.now to.now) };

    /// Removes the new file.
    fn remove(&self, file: &Self::New, path: &str) -> io::Result<()>
        requires { LeadsTo Self.looking changing.shows_new path.now file.now }
        ensures { OnOk result (changing.removes path.now) };
}
