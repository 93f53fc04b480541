//! The calls of the operating system. Each method of the two traits makes one.
//!
//! Contracts can't say what the operating system does, so nothing is known of the evidence here,
//! but for the number of a file that is open for writing.

ghost use Rattle.std.specs.Prelude.{◌≡◌, ◌<ℤ◌, None, bit_and, pos};
ghost use Rattle.std.specs.Fd.{file_raw_fd};
ghost use Rattle.std.specs.Fs.{file_type, metadata_len, metadata_mode};
ghost use Rattle.ud_tree.specs.Evidence.{KindOf};

use crate::disk::facts::{Attributes, Facts};
use crate::disk::system::{Changes, Looks};
use std::alloc::{AllocError, Global};
use std::fs::{self, File, Metadata, OpenFile, OpenOptions, Permissions, TryLockError};
use std::io::{self, ErrorKind, Read, Seek, SeekFrom, Write};
use std::os::fd::{AsFd, AsRawFd};
use std::os::unix::fs::{MetadataExt, OpenOptionsExt, PermissionsExt, fchown};
use std::rt::Files;
use std::time::UNIX_EPOCH;
use ud_replace::{FileTime, NodeKind};

/// The bits of a mode that `chmod` sets.
const MODE: u32 = 0o7777;

/// The number of the last standard stream.
const STDERR: i32 = 2;

/// A file that is open for writing in the operating system, too. It isn't a standard stream.
#[derive(Drop)]
pub struct Writer {
    file: File,
    ghost apart: { pos 2 <ℤ file_raw_fd file },
}

impl Attributes for Metadata {
    ghost shown = { record {
      kind = λ found kind. KindOf (file_type found) kind;
      device = λ _ _. Unit {0};
      inode = λ _ _. Unit {0};
      born = λ _ _. Unit {0};
      size = λ found size. size ≡ metadata_len found;
      modified = λ _ _. Unit {0};
      changed = λ _ _. Unit {0};
      links = λ _ _. Unit {0};
      mode = λ found mode. mode ≡ bit_and (metadata_mode found) 0o7777;
      owner = λ _ _. Unit {0};
      group = λ _ _. Unit {0};
    } };

    fn kind(&self) -> NodeKind {
        if self.is_file() {
            NodeKind::File
        } else if self.is_dir() {
            NodeKind::Directory
        } else if self.is_symlink() {
            NodeKind::Link
        } else {
            NodeKind::Other
        }
    }

    fn device(&self) -> u64 {
        self.dev()
    }

    fn inode(&self) -> u64 {
        self.ino()
    }

    fn born(&self) -> u64 {
        let Ok(time) = self.created() else {
            return 0;
        };
        match time.duration_since(UNIX_EPOCH) {
            Ok(since) => u64::try_from(since.as_nanos()).unwrap_or(0),
            Err(_) => 0,
        }
    }

    fn byte_count(&self) -> u64 {
        self.size()
    }

    fn modified_at(&self) -> FileTime {
        FileTime {
            seconds: self.mtime(),
            nanoseconds: self.mtime_nsec(),
        }
    }

    fn changed_at(&self) -> FileTime {
        FileTime {
            seconds: self.ctime(),
            nanoseconds: self.ctime_nsec(),
        }
    }

    fn links(&self) -> u64 {
        self.nlink()
    }

    fn permissions(&self) -> u32 {
        self.mode() & MODE
    }

    fn owner(&self) -> u32 {
        self.uid()
    }

    fn group(&self) -> u32 {
        self.gid()
    }
}

impl<R: Files<File = File>> Looks for R {
    type File = File;

    type Names = R::Dir;

    ghost looking = { record {
      looked = λ _ _. Unit {0};
      lacks = λ _. Unit {0};
      followed = λ _ _. Unit {0};
      unfollowed = λ _. Unit {0};
      opened = λ _ _ _. Unit {0};
      entered = λ _ _. Unit {0};
      closed = λ _. Unit {0};
      shows = λ _ _. Unit {0};
      numbers = λ _ _. Unit {0};
      lists = λ _ _. Unit {0};
      unread = λ _. None;
    } };

    fn look(&self, path: &str) -> io::Result<Facts> {
        Ok(Facts::of(&Files::symlink_metadata(self, path)?))
    }

    fn follow(&self, path: &str) -> io::Result<Facts> {
        Ok(Facts::of(&Files::metadata(self, path)?))
    }

    fn open(&self, path: &str, _found: &Facts) -> io::Result<File> {
        fs::open(self, path)
    }

    fn enter(&self, path: &str) -> io::Result<File> {
        fs::open(self, path)
    }

    fn facts(&self, file: &File) -> io::Result<Facts> {
        Ok(Facts::of(&file.metadata()?))
    }

    fn path_by_number(&self, alloc: Global, directory: &File) -> Result<String, AllocError> {
        format!(in alloc; "/proc/self/fd/{}/", directory.as_fd().as_raw_fd())
    }

    fn names(&self, path: &str) -> io::Result<R::Dir> {
        self.open_dir(path)
    }

    fn read_names(&self, names: &mut R::Dir, buffer: &mut [u8]) -> io::Result<usize> {
        names.read(buffer)
    }
}

impl Read for Writer {
    fn read(&mut self, buf: &mut [u8]) -> io::Result<usize> {
        (&self.file).read(buf)
    }
}

impl Write for Writer {
    fn write(&mut self, buf: &[u8]) -> io::Result<usize> {
        (&self.file).write(buf)
    }

    fn flush(&mut self) -> io::Result<()> {
        (&self.file).flush()
    }
}

impl<R: Files<File = File>> Changes for R {
    type Old = Writer;

    type New = Writer;

    ghost changing = { record {
      updates = λ _ _ _. Unit {0};
      shows = λ _ _. Unit {0};
      locks = λ _. Unit {0};
      lacks_locks = λ _. Unit {0};
      looks_beside = λ _ _ _. Unit {0};
      starts = λ _ _. Unit {0};
      cuts = λ _ _ _. Unit {0};
      syncs = λ _. Unit {0};
      creates = λ _ _. Unit {0};
      shows_new = λ _ _. Unit {0};
      locks_new = λ _. Unit {0};
      is_lockless = λ _. Unit {0};
      appends = λ _ _ _ _. Unit {0};
      sets_owner = λ _ _ _ _. Unit {0};
      sets_mode = λ _ _. Unit {0};
      syncs_new = λ _. Unit {0};
      renames = λ _ _. Unit {0};
      removes = λ _. Unit {0};
    } };

    fn update(&self, path: &str, _found: &Facts) -> io::Result<Writer> {
        apart(OpenOptions::new().read(true).write(true).open(self, path)?)
    }

    fn old_facts(&self, file: &Writer) -> io::Result<Facts> {
        Ok(Facts::of(&file.file.metadata()?))
    }

    fn lock_old(&self, file: &mut Writer) -> io::Result<bool> {
        lock(&file.file)
    }

    fn look_beside(&self, _file: &Writer, path: &str) -> io::Result<Facts> {
        self.look(path)
    }

    fn rewind(&self, file: &mut Writer) -> io::Result<()> {
        let _start = (&file.file).seek(SeekFrom::Start(0))?;
        Ok(())
    }

    fn cut(&self, file: &mut Writer, len: u64) -> io::Result<()> {
        file.file.set_len(len)
    }

    fn sync_old(&self, file: &Writer) -> io::Result<()> {
        file.file.sync_all()
    }

    fn remove_left_over(&self, _file: &Writer, path: &str) -> io::Result<()> {
        self.remove_file(path)
    }

    fn create(&self, path: &str) -> io::Result<Writer> {
        let file = OpenOptions::new()
            .write(true)
            .create_new(true)
            .mode(0o600)
            .open(self, path)?;
        apart(file)
    }

    fn new_facts(&self, file: &Writer) -> io::Result<Facts> {
        Ok(Facts::of(&file.file.metadata()?))
    }

    fn lock_new(&self, file: &mut Writer) -> io::Result<bool> {
        lock(&file.file)
    }

    fn append(&self, file: &mut Writer, bytes: &[u8]) -> io::Result<usize> {
        (&file.file).write(bytes)
    }

    fn set_owner(&self, file: &mut Writer, owner: Option<u32>, group: u32) -> io::Result<()> {
        fchown(&file.file, owner, Some(group))
    }

    fn set_mode(&self, file: &Writer, mode: u32) -> io::Result<()> {
        file.file.set_permissions(Permissions::from_mode(mode))
    }

    fn sync_new(&self, file: &Writer) -> io::Result<()> {
        file.file.sync_all()
    }

    fn rename(&self, _file: &Writer, from: &str, to: &str) -> io::Result<()> {
        Files::rename(self, from, to)
    }

    fn remove(&self, _file: &Writer, path: &str) -> io::Result<()> {
        self.remove_file(path)
    }
}

/// Returns a file that is open for writing.
///
/// # Errors
/// Fails if it has the number of a standard stream, which was closed: messages would be written
/// into it.
fn apart(file: File) -> io::Result<Writer> {
    if file.as_raw_fd() <= STDERR {
        return Err(io::Error::new(ErrorKind::Other, "a standard stream is closed"));
    }
    Ok(Writer { file })
}

/// Locks a file. Returns false if another run has locked it.
fn lock(file: &File) -> io::Result<bool> {
    match file.try_lock() {
        Ok(()) => Ok(true),
        Err(TryLockError::WouldBlock) => Ok(false),
        Err(TryLockError::Error(error)) => Err(error),
    }
}
