//! Directories as they were met: paths keep leading into the same directory, whatever takes its
//! place.
//!
//! A directory's owner can put a link to another one in its place. So a directory is opened,
//! compared with the one that was met at its path, and kept open. A name in it is reached by the
//! number of the open directory, through `/proc`. One directory is open at a time. To keep
//! directories in another way, change only `compared` and `entry_of`.

ghost use Rattle.std.specs.Prelude.{◌≡◌, ◌↔◌, IfOk, IfSome, IsNone, IsSome};
ghost use Rattle.std.specs.Prelude.{MatchOption, None, OnOk, Some, false, string_bytes, true};
ghost use Rattle.std.specs.BTreeMap.{get_by_text};
ghost use Rattle.std.specs.Option.{ForSome};
ghost use Rattle.ud_tree.specs.Meeting.{Enters, IsCompared, IsEntry, IsPlace, KeepsMet, KnowsProc};
ghost use Rattle.ud_tree.specs.Meeting.{LeadsInto, MeetsFirst, is_other_file};
ghost use Rattle.ud_tree.specs.Paths.{slashed};

use crate::disk::facts::is_same;
use crate::disk::system::Looks;
use crate::paths::{directory, directory_path, last_name};
use std::alloc::Global;
use std::collections::BTreeMap;
use std::io::{self, ErrorKind};
use ud_replace::FileId;

/// A directory that names are reached in.
#[derive(Drop)]
pub(crate) struct Entered<S: Looks> {
    /// Its path, with a slash at its end.
    pub path: Vec<u8>,
    /// The open directory; `None` if the user may not open it.
    pub file: Option<S::File>,
    /// The path that leads into it, with a slash at its end.
    pub entry: String,
    ghost leads: { ∥ LeadsInto S.looking path.items file (string_bytes entry) ∥₁ },
}

/// The directories that were met, and the open one.
#[derive(Drop)]
pub struct Directories<S: Looks> {
    alloc: Global,
    /// The directories by their paths, with a slash at the end. The first one met at a path counts.
    met: BTreeMap<String, FileId>,
    /// The last one that names were reached in.
    entered: Option<Entered<S>>,
    /// True if `/proc` leads to open directories; `None` before that is tried.
    has_proc: Option<bool>,
    ghost knows: { ∥ IfSome has_proc (KnowsProc S.looking) ∥₁ },
}

impl<S: Looks> Directories<S> {
    /// Returns the state before any directory is met.
    pub(crate) fn new(alloc: Global) -> Directories<S>
        ensures { result.has_proc ≡ None }
    {
        Directories {
            alloc,
            met: BTreeMap::new(alloc),
            entered: None,
            has_proc: None,
        }
    }

    /// Returns whether `/proc` was tried and doesn't lead to open directories.
    pub(crate) fn lacks_proc(&self) -> bool
        ensures { result ≡ true ↔ self.now.has_proc ≡ Some false }
    {
        match self.has_proc {
            Some(has_proc) => !has_proc,
            None => false,
        }
    }

    /// Remembers which directory is at a path. The first one met there counts.
    pub(crate) fn meet(&mut self, path: &str, id: FileId) -> io::Result<()>
        ensures first { OnOk result (MeetsFirst path.now id self.old.met self.new.met) }
        ensures met { OnOk result (IsSome (get_by_text self.new.met (slashed path.now))) }
        ensures kept { KeepsMet self.old.met self.new.met }
    {
        let directory = directory_path(self.alloc, path)?;
        if self.met.get(directory.as_str()).is_none() {
            self.record(directory.as_str(), id)?;
        }
        Ok(())
    }

    /// Returns a path that leads to a name in the directory that was met, whatever takes its place.
    /// A directory that wasn't met is taken as it is now.
    pub(crate) fn place(&mut self, system: &S, name: &[u8]) -> io::Result<String>
        ensures place { IfOk result (λ path. IsPlace S.looking name.now (string_bytes path)) }
        ensures kept { KeepsMet self.old.met self.new.met }
    {
        let directory = directory(name);
        let last = last_name(name);
        if directory.is_empty() || last.is_empty() {
            return Ok(String::from_str(self.alloc, text_of(name)?)?);
        }
        let last = text_of(last)?;
        let mut path = self.within(system, text_of(directory)?)?;
        path.push_str(last)?;
        Ok(path)
    }

    /// Returns a path that leads into a directory, whose own path ends in a slash. The directory
    /// stays open.
    pub(crate) fn within(&mut self, system: &S, directory: &str) -> io::Result<String>
        ensures enters { IfOk result (λ path. Enters S.looking directory.now (string_bytes path)) }
        ensures held { IfOk result (λ path. ForSome self.new.entered (λ e.
            (e.path.items ≡ directory.now) × (string_bytes e.entry ≡ string_bytes path))) }
        ensures kept { KeepsMet self.old.met self.new.met }
    {
        if let Some(entered) = self.entered_at(directory) {
            return Ok(String::from_str(self.alloc, entered.entry.as_str())?);
        }
        self.entered = None;
        let entered = self.enter(system, directory)?;
        let path = String::from_str(self.alloc, entered.entry.as_str())?;
        self.entered = Some(entered);
        Ok(path)
    }

    /// Returns the directory that names were last reached in, if it is this one.
    fn entered_at(&self, directory: &str) -> Option<&Entered<S>>
        ensures { IfSome result (λ e. (self.now.entered ≡ Some e.now) ×
            (e.now.path.items ≡ directory.now)) }
    {
        match &self.entered {
            Some(entered) if entered.path.as_slice() == directory.as_bytes() => Some(entered),
            _ => None,
        }
    }

    /// Opens a directory, to reach names in it.
    fn enter(&mut self, system: &S, directory: &str) -> io::Result<Entered<S>>
        ensures path { IfOk result (λ e. e.path.items ≡ directory.now) }
        ensures compared { IfOk result
            (λ e. IfSome e.file (IsCompared S.looking directory.now self.new.met)) }
        ensures kept { KeepsMet self.old.met self.new.met }
    {
        let mut path = Vec::new(self.alloc);
        path.extend_from_slice(directory.as_bytes())?;
        let Some(file) = self.compared(system, directory)? else {
            let entry = String::from_str(self.alloc, directory)?;
            return Ok(Entered {
                path,
                file: None,
                entry,
            });
        };
        let entry = self.entry_of(system, directory, &file)?;
        let file = Some(file);
        Ok(Entered { path, file, entry })
    }

    /// Opens a directory, and checks that it is the one that was met. `None` if none was met there
    /// and the user may not open it: the directory of a given path needn't be listed.
    fn compared(&mut self, system: &S, directory: &str) -> io::Result<Option<S::File>>
        ensures entered { IfOk result (λ opened. MatchOption opened
            (S.looking.closed directory.now) (λ file. S.looking.entered file directory.now)) }
        ensures compared { IfOk result
            (λ opened. IfSome opened (IsCompared S.looking directory.now self.new.met)) }
        ensures kept { KeepsMet self.old.met self.new.met }
    {
        let met = self.met.get(directory).copied();
        let file = match system.enter(directory) {
            Ok(file) => file,
            Err(error) => {
                if met.is_none() && error.kind() == ErrorKind::PermissionDenied {
                    return Ok(None);
                }
                return Err(error);
            }
        };
        let found = system.facts(&file)?.node.id;
        match met {
            Some(id) if is_same(id, found) => Ok(Some(file)),
            Some(_) => Err(other_file()),
            None => {
                self.record(directory, found)?;
                Ok(Some(file))
            }
        }
    }

    /// Records what was met at a directory's path for the first time.
    fn record(&mut self, directory: &str, id: FileId) -> io::Result<()>
        requires { IsNone (get_by_text self.old.met directory.now) }
        ensures met { OnOk result (get_by_text self.new.met directory.now ≡ Some id) }
        ensures kept { KeepsMet self.old.met self.new.met }
    {
        let key = String::from_str(self.alloc, directory)?;
        let _ = self.met.insert(key, id)?;
        Ok(())
    }

    /// Returns the path that leads into an open directory: by its number, or its own path without
    /// `/proc`.
    fn entry_of(&mut self, system: &S, directory: &str, file: &S::File) -> io::Result<String>
        ensures entry { IfOk result
            (λ path. IsEntry S.looking directory.now file.now (string_bytes path)) }
        ensures met { self.new.met ≡ self.old.met }
    {
        let entry = system.path_by_number(self.alloc, file)?;
        if self.finds_proc(system, entry.as_str(), file)? {
            return Ok(entry);
        }
        Ok(String::from_str(self.alloc, directory)?)
    }

    /// Returns whether `/proc` leads to open directories. A look at the first one tells.
    fn finds_proc(&mut self, system: &S, path: &str, file: &S::File) -> io::Result<bool>
        requires { S.looking.numbers file.now path.now }
        ensures knows { IfOk result (λ finds. ∥ KnowsProc S.looking finds ∥₁) }
        ensures kept { IfOk result (λ finds. self.new.has_proc ≡ Some finds) }
        ensures met { self.new.met ≡ self.old.met }
    {
        if let Some(known) = self.has_proc {
            return Ok(known);
        }
        let finds = leads_to(system, path, file)?;
        self.has_proc = Some(finds);
        Ok(finds)
    }
}

/// Returns a path as text.
///
/// # Errors
/// Fails if it isn't UTF-8.
pub(crate) fn text_of(name: &[u8]) -> io::Result<&str>
    ensures { IfOk result (λ text. text.now ≡ name.now) }
{
    match std::str::from_utf8(name) {
        Ok(path) => Ok(path),
        Err(_) => Err(io::Error::from(ErrorKind::InvalidFilename)),
    }
}

/// Returns the error for a file or directory that isn't the one expected under its name.
pub(crate) fn other_file() -> io::Error
    ensures { is_other_file result ≡ true }
{
    io::Error::new(ErrorKind::ResourceBusy, "changed meanwhile")
}

/// Returns whether an error is that of `other_file`. The system calls a file busy, too, if it is
/// mounted by itself.
pub(crate) fn is_other_file(error: io::Error) -> bool
    ensures { result ≡ is_other_file error }
{
    matches!(error.kind(), ErrorKind::ResourceBusy) && error.raw_os_error().is_none()
}

/// Returns whether the path with the number of an open directory leads to it.
fn leads_to<S: Looks>(system: &S, path: &str, file: &S::File) -> io::Result<bool>
    requires { S.looking.numbers file.now path.now }
    ensures { IfOk result (KnowsProc S.looking) }
{
    let shown = system.facts(file)?;
    match system.follow(path) {
        Ok(found) => Ok(is_same(shown.node.id, found.node.id)),
        Err(_) => Ok(false),
    }
}
