//! The directory of a file, as far as `replace` uses it.

ghost use Rattle.std.specs.Prelude.{◌≡◌, ◌≤◌, ◌∷◌, [], List, length, IfSome};
ghost use Rattle.std.specs.List.{All};
ghost use Rattle.ud_replace.specs.Calls.{Call, was_read, asked, made, appended, given, synced};
ghost use Rattle.ud_replace.specs.Calls.{looked, renamed, overwrote, removed};

use crate::stat::FileStat;

/// The reason why no file was created.
#[derive(Clone, Copy, Debug, PartialEq, Eq)]
pub enum CreateError {
    /// The user may not create files in the directory, or the file system is read-only.
    Denied,
    /// There is already a file with that name.
    Taken,
    /// Another reason.
    Failed,
}

/// A directory of files, each with a name.
///
/// Calls may answer anything, but each call adds itself and its answer to `history`. A type that
/// implements this trait makes the system call that it records, and no other one, and has the
/// evidence that the system answered so. It keeps the reasons for failures itself, if they are to
/// be reported.
///
/// A name is a path, as bytes. No call follows a symbolic link at the end of a path.
pub trait Directory {
    /// The calls so far with their answers, the newest first.
    ghost history: { Self → List Call };

    /// There is evidence for the answer of this call, unless it failed.
    ghost is_evident: { Call → Type 0 };

    /// Reads all bytes of a file into `text`. Returns the facts about the file from before the
    /// first byte was read.
    ///
    /// # Errors
    /// `None` if the file can't be opened or isn't a regular file, if a read fails, or if memory
    /// for the bytes can't be allocated.
    fn read(&mut self, name: &[u8], text: &mut Vec<u8>) -> Option<FileStat>
        requires empty { text.old.items ≡ [] }
        ensures noted { history self.new ≡
            was_read name.now text.new.items result ∷ history self.old };

    /// Returns whether the user may write into a file.
    fn open_to_write(&mut self, name: &[u8]) -> bool
        ensures { history self.new ≡ asked name.now result ∷ history self.old };

    /// Creates an empty file, which only the user may read and write. Its name must be free. A file
    /// left over by a killed run doesn't count, and is removed first.
    ///
    /// # Errors
    /// `Denied` if the directory can't be written, `Taken` if the name isn't free, else `Failed`.
    /// No file was created.
    fn create(&mut self, name: &[u8]) -> Result<(), CreateError>
        ensures { history self.new ≡ made name.now result ∷ history self.old };

    /// Appends a prefix of `bytes` to a file that `create` made. Returns its length.
    ///
    /// # Errors
    /// `None` if the call fails.
    fn append(&mut self, name: &[u8], bytes: &[u8]) -> Option<usize>
        ensures count { IfSome result (λ n. n ≤ length bytes.now) }
        ensures noted { history self.new ≡
            appended name.now bytes.now result ∷ history self.old };

    /// Gives a file the mode of `like`, and its owner and group if the user may set them. Returns
    /// whether the mode was set.
    fn set_mode_and_owner(&mut self, name: &[u8], like: &FileStat) -> bool
        ensures { history self.new ≡ given name.now like.now result ∷ history self.old };

    /// Waits until the bytes of a file that `create` made are on disk. Returns whether they are.
    fn sync(&mut self, name: &[u8]) -> bool
        ensures { history self.new ≡ synced name.now result ∷ history self.old };

    /// Returns the facts about a file now; `None` if the call fails.
    fn look(&mut self, name: &[u8]) -> Option<FileStat>
        ensures { history self.new ≡ looked name.now result ∷ history self.old };

    /// Renames the file `from` to `to`, atomically. A file that had the name loses it. Returns
    /// whether that was done.
    fn rename(&mut self, from: &[u8], to: &[u8]) -> bool
        ensures { history self.new ≡ renamed from.now to.now result ∷ history self.old };

    /// Writes `text` over the bytes of a file, and cuts off the rest. Returns whether the file now
    /// has `text`. If not, it may have any bytes.
    fn overwrite(&mut self, name: &[u8], text: &[u8]) -> bool
        ensures { history self.new ≡ overwrote name.now text.now result ∷ history self.old };

    /// Removes a file. Returns whether it is gone.
    fn remove(&mut self, name: &[u8]) -> bool
        ensures { history self.new ≡ removed name.now result ∷ history self.old };

    /// There is evidence for the answer of each call so far.
    ghost evident: { (d : Self) → ∥ All is_evident (history d) ∥₁ };
}
