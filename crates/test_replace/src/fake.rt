//! A directory in memory, with a file and a fresh one.

ghost use Rattle.std.specs.Prelude.{◌≡◌, ◌≤◌, length, IfSome};

use std::alloc::Global;
use ud_replace::{CreateError, Directory, DirectoryCall, FileStat, FileTime, FileVersion, History};

/// A change that another program makes to the file after it was read.
#[derive(Clone, Copy)]
pub(crate) enum Change {
    /// Nothing.
    Nothing,
    /// Its bytes, before it is read again.
    Text,
    /// Its mode, before it is read again.
    Mode,
    /// Its bytes, after it was read again.
    Version,
}

/// How the directory fails.
#[derive(Clone, Copy)]
pub(crate) struct Failures {
    /// The number of the call that fails, counted from 1; 0 if none does.
    pub call: usize,
    /// True if all calls after that one fail too.
    pub and_after: bool,
    /// True if the directory can't be written.
    pub denied: bool,
    /// True if the fresh name isn't free.
    pub taken: bool,
    /// The change that another program makes.
    pub change: Change,
}

/// A directory in which the file is the one that is replaced.
#[derive(Drop)]
pub(crate) struct FakeDirectory {
    /// The file's bytes.
    pub file: Vec<u8>,
    /// The bytes of the fresh file, while it is there.
    pub fresh: Option<Vec<u8>>,
    /// A letter for each call: `r`ead, `m`ay_write, `c`reate, `a`ppend, `g`ive a mode, `s`ync,
    /// `l`ook, re`n`ame, `o`verwrite, remove (`x`).
    pub calls: Vec<u8>,
    links: u64,
    reads: usize,
    failures: Failures,
    alloc: Global,
    history: History,
}

impl FakeDirectory {
    /// Returns a directory before any call.
    pub(crate) fn new(
        alloc: Global,
        file: Vec<u8>,
        links: u64,
        failures: Failures,
    ) -> FakeDirectory {
        FakeDirectory {
            file,
            fresh: None,
            calls: Vec::new(alloc),
            links,
            reads: 0,
            failures,
            alloc,
            history: History::new(),
        }
    }

    /// Counts a call. Returns whether the call works.
    fn works(&mut self, letter: u8) -> bool
        ensures { self.new.history.calls ≡ self.old.history.calls }
    {
        let counted = self.calls.push(letter).is_ok();
        let number = self.calls.len();
        let fails = number == self.failures.call
            || (self.failures.and_after && number > self.failures.call);
        counted && !fails
    }

    /// Returns what is known of the file.
    fn stat(&self, size: u64, mode: u32) -> FileStat {
        let time = FileTime {
            seconds: -1,
            nanoseconds: 5,
        };
        FileStat {
            version: FileVersion {
                device: 1,
                inode: 2,
                size,
                modified: time,
                changed: time,
            },
            links: self.links,
            mode,
            owner: 3,
            group: 4,
        }
    }
}

/// Replaces all bytes of a buffer. Returns whether memory sufficed.
fn set(bytes: &mut Vec<u8>, text: &[u8]) -> bool {
    bytes.clear();
    bytes.extend_from_slice(text).is_ok()
}

/// Appends the first byte of some. Returns how many were appended.
fn append_one(fresh: &mut Option<Vec<u8>>, bytes: &[u8]) -> Option<usize>
    ensures { IfSome result (λ n. n ≤ length bytes.now) }
{
    let fresh = fresh.as_mut()?;
    let first = bytes.first()?;
    fresh.push(*first).ok()?;
    Some(1)
}

impl Directory for FakeDirectory {
    ghost history = { λ f. f.history.calls };

    ghost is_evident = { λ _. Unit {0} };

    fn read(&mut self, name: &[u8], text: &mut Vec<u8>) -> Option<FileStat> {
        let works = self.works(b'r') && text.extend_from_slice(self.file.as_slice()).is_ok();
        self.reads = self.reads.saturating_add(1);
        let mut mode = 0o754;
        if self.reads == 2 {
            match self.failures.change {
                Change::Nothing | Change::Version => {}
                Change::Text => text.clear(),
                Change::Mode => mode = 0o755,
            }
        }
        let answer = if works {
            Some(self.stat(0, mode))
        } else {
            None
        };
        let text = text.as_slice();
        self.history = self
            .history
            .with(&DirectoryCall::Read { name, text, answer });
        answer
    }

    fn open_to_write(&mut self, name: &[u8]) -> bool {
        let answer = self.works(b'm');
        self.history = self
            .history
            .with(&DirectoryCall::OpenToWrite { name, answer });
        answer
    }

    fn create(&mut self, name: &[u8]) -> Result<(), CreateError> {
        let works = self.works(b'c');
        let answer = if self.failures.denied {
            Err(CreateError::Denied)
        } else if self.failures.taken {
            Err(CreateError::Taken)
        } else if works {
            Ok(())
        } else {
            Err(CreateError::Failed)
        };
        if answer.is_ok() {
            self.fresh = Some(Vec::new(self.alloc));
        }
        self.history = self.history.with(&DirectoryCall::Create { name, answer });
        answer
    }

    fn append(&mut self, name: &[u8], bytes: &[u8]) -> Option<usize> {
        let answer = if self.works(b'a') {
            append_one(&mut self.fresh, bytes)
        } else {
            None
        };
        self.history = self.history.with(&DirectoryCall::Append {
            name,
            bytes,
            answer,
        });
        answer
    }

    fn set_mode_and_owner(&mut self, name: &[u8], like: &FileStat) -> bool {
        let answer = self.works(b'g');
        let like = *like;
        self.history = self
            .history
            .with(&DirectoryCall::SetModeAndOwner { name, like, answer });
        answer
    }

    fn sync(&mut self, name: &[u8]) -> bool {
        let answer = self.works(b's');
        self.history = self.history.with(&DirectoryCall::Sync { name, answer });
        answer
    }

    fn look(&mut self, name: &[u8]) -> Option<FileStat> {
        let size = match self.failures.change {
            Change::Version => 1,
            Change::Nothing | Change::Text | Change::Mode => 0,
        };
        let answer = if self.works(b'l') {
            Some(self.stat(size, 0o754))
        } else {
            None
        };
        self.history = self.history.with(&DirectoryCall::Look { name, answer });
        answer
    }

    fn rename(&mut self, from: &[u8], to: &[u8]) -> bool {
        let answer = self.works(b'n');
        if answer && let Some(fresh) = self.fresh.take() {
            self.file = fresh;
        }
        self.history = self
            .history
            .with(&DirectoryCall::Rename { from, to, answer });
        answer
    }

    fn overwrite(&mut self, name: &[u8], text: &[u8]) -> bool {
        let answer = if self.works(b'o') {
            set(&mut self.file, text)
        } else {
            self.file.truncate(1);
            false
        };
        self.history = self
            .history
            .with(&DirectoryCall::Overwrite { name, text, answer });
        answer
    }

    fn remove(&mut self, name: &[u8]) -> bool {
        let answer = self.works(b'x');
        if answer {
            self.fresh = None;
        }
        self.history = self.history.with(&DirectoryCall::Remove { name, answer });
        answer
    }

    ghost evident = { λ _. ∣ (λ _ _ _. tt) ∣₁ };
}
