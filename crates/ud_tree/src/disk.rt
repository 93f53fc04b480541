//! The real tree: files of the system.
//!
//! Each method of `Directory` and `Tree` makes the call that it records, on a name in the directory
//! that was met there (`Directories`), and records it with the evidence for its answer (`Notes`).
//! Paths are UTF-8: the library opens no others, so no other name can be read. `Looks` and
//! `Changes` have the calls of the system, and the files beside them say what they are used for.

ghost use Rattle.std.specs.Prelude.{◌≡◌, ◌↔◌, ◌≤◌, [], IfOk, OnOk, Some, false, length, true, ◌∷◌};
ghost use Rattle.std.specs.Prelude.{MatchResult, None};
ghost use Rattle.std.specs.Option.{ForSome};
ghost use Rattle.std.specs.IoError.{error_kind};
ghost use Rattle.ud_replace.specs.Calls.{walked};
ghost use Rattle.ud_replace.specs.CallRecords.{walk_call_of};
ghost use Rattle.ud_tree.specs.Changing.{GivesMode, GivesOwner, HasBytes};
ghost use Rattle.ud_tree.specs.Creating.{IsNew};
ghost use Rattle.ud_tree.specs.EvidentCalls.{IsEvident, IsEvidentWalk};
ghost use Rattle.ud_tree.specs.Meeting.{At};
ghost use Rattle.ud_tree.specs.Naming.{IsMet, IsRenamed};
ghost use Rattle.ud_tree.specs.Opening.{HasRead, IsFound, OpensToWrite};

mod calls;
mod changing;
mod creating;
mod directories;
mod facts;
mod naming;
mod notes;
mod opening;
mod reading;
mod sampling;
mod system;

use crate::disk::changing::{overwrite, set_mode_and_owner};
use crate::disk::creating::{create_error, create_file};
use crate::disk::directories::Directories;
use crate::disk::naming::{leads_to_directory, list_directory, node_at, remove_file, rename_file};
use crate::disk::notes::Notes;
use crate::disk::opening::{look_at, open_to_write, read_again, read_file};
use crate::tree::Tree;
pub(crate) use directories::is_other_file;
pub use facts::Facts;
use std::alloc::Global;
use std::io::{self, ErrorKind};
pub use system::{Changes, Looks};
use ud_replace::{CreateError, Directory, DirectoryCall, DirectoryWalk, FileStat, Lookup, Sample};

/// An open file, and the name that it was opened or created under.
#[derive(Drop)]
struct Named<F> {
    name: Vec<u8>,
    file: F,
}

/// The files of a system.
#[derive(Drop)]
pub struct Disk<'s, S: Changes> {
    system: &'s S,
    alloc: Global,
    /// The file that `create` made, until it is renamed or removed.
    fresh: Option<Named<S::New>>,
    /// The file that `open_to_write` opened. It is read again, and written into, without looking at
    /// its path again.
    opened: Option<Named<S::Old>>,
    /// The error of the last failed call.
    reason: Option<io::Error>,
    directories: Directories<S>,
    notes: Notes<S>,
}

impl<'s, S: Changes> Disk<'s, S> {
    /// Returns the files of a system, before any call.
    pub fn new(system: &'s S, alloc: Global) -> Disk<'s, S>
        ensures { result.notes.history.calls ≡ [] }
    {
        Disk {
            system,
            alloc,
            fresh: None,
            opened: None,
            reason: None,
            directories: Directories::new(alloc),
            notes: Notes::new(),
        }
    }

    /// Returns whether directories were found only by their paths, for lack of `/proc`.
    pub fn lacks_proc(&self) -> bool
        ensures { result ≡ true ↔ self.now.directories.has_proc ≡ Some false }
    {
        self.directories.lacks_proc()
    }

    /// Keeps the error of a call. Returns its value, if any.
    fn kept<T>(&mut self, answer: io::Result<T>) -> Option<T>
        ensures value { MatchResult answer (λ x. result ≡ Some x) (λ e. result ≡ None) }
        ensures calls { self.new.notes.history.calls ≡ self.old.notes.history.calls }
    {
        match answer {
            Ok(value) => Some(value),
            Err(error) => {
                self.reason = Some(error);
                None
            }
        }
    }

    /// Reads a file: the one that `open_to_write` opened under that name, else the one that is
    /// there.
    fn read_at(&mut self, name: &[u8], text: &mut Vec<u8>) -> io::Result<FileStat>
        requires empty { text.old.items ≡ [] }
        ensures read { IfOk result (λ stat. At S.looking name.now (λ place. HasRead S.looking
            S.changing S.File.remaining S.Old.remaining place text.new.items stat)) }
        ensures calls { self.new.notes.history.calls ≡ self.old.notes.history.calls }
    {
        let place = self.directories.place(self.system, name)?;
        match &mut self.opened {
            Some(opened) if opened.name.as_slice() == name => {
                read_again(self.system, place.as_str(), &mut opened.file, text)
            }
            _ => {
                self.opened = None;
                read_file(self.system, place.as_str(), text)
            }
        }
    }

    /// Opens a file to write into it.
    fn opened_at(&mut self, name: &[u8]) -> io::Result<Named<S::Old>>
        ensures name { IfOk result (λ opened. opened.name.items ≡ name.now) }
        ensures open { IfOk result (λ opened. At S.looking name.now
            (λ place. OpensToWrite S.looking S.changing place opened.file)) }
        ensures calls { self.new.notes.history.calls ≡ self.old.notes.history.calls }
    {
        let mut owned = Vec::new(self.alloc);
        owned.extend_from_slice(name)?;
        let place = self.directories.place(self.system, name)?;
        let file = open_to_write(self.system, place.as_str())?;
        Ok(Named { name: owned, file })
    }

    /// Creates a file.
    fn created_at(&mut self, name: &[u8]) -> io::Result<Named<S::New>>
        ensures name { IfOk result (λ made. made.name.items ≡ name.now) }
        ensures new { IfOk result (λ made. At S.looking name.now
            (λ place. IsNew S.changing place made.file)) }
        ensures calls { self.new.notes.history.calls ≡ self.old.notes.history.calls }
    {
        let mut owned = Vec::new(self.alloc);
        owned.extend_from_slice(name)?;
        let place = self.directories.place(self.system, name)?;
        let file = create_file(self.system, place.as_str())?;
        Ok(Named { name: owned, file })
    }

    /// Returns the facts about a file.
    fn found_at(&mut self, name: &[u8]) -> io::Result<FileStat>
        ensures found { IfOk result
            (λ stat. At S.looking name.now (λ place. IsFound S.looking place stat)) }
        ensures calls { self.new.notes.history.calls ≡ self.old.notes.history.calls }
    {
        let place = self.directories.place(self.system, name)?;
        look_at(self.system, place.as_str())
    }

    /// Creates a file, and keeps it as the new one.
    fn create_fresh(&mut self, name: &[u8]) -> Result<(), CreateError>
        ensures new { OnOk result (At S.looking name.now
            (λ place. (file : _) × IsNew S.changing place file)) }
        ensures calls { self.new.notes.history.calls ≡ self.old.notes.history.calls }
    {
        match self.created_at(name) {
            Ok(file) => {
                self.fresh = Some(file);
                Ok(())
            }
            Err(error) => {
                self.reason = Some(error);
                Err(create_error(&error))
            }
        }
    }

    /// Renames the new file.
    fn renamed_at(&mut self, from: &[u8], to: &[u8]) -> io::Result<()>
        ensures renamed { OnOk result (IsRenamed S.looking S.changing from.now to.now) }
        ensures closed { OnOk result ((self.new.fresh ≡ None) × (self.new.opened ≡ None)) }
        ensures calls { self.new.notes.history.calls ≡ self.old.notes.history.calls }
    {
        let file = new_file(&self.fresh, from)?;
        rename_file(self.system, &mut self.directories, file, from, to)?;
        self.fresh = None;
        self.opened = None;
        Ok(())
    }

    /// Removes the new file, and closes it.
    fn removed_at(&mut self, name: &[u8]) -> io::Result<()>
        ensures removed { OnOk result (At S.looking name.now S.changing.removes) }
        ensures closed { self.new.fresh ≡ None }
        ensures calls { self.new.notes.history.calls ≡ self.old.notes.history.calls }
    {
        let removed = match new_file(&self.fresh, name) {
            Ok(file) => remove_file(self.system, &mut self.directories, file, name),
            Err(error) => Err(error),
        };
        self.fresh = None;
        removed
    }

    /// Returns what is at a path. Keeps the error if that can't be known.
    fn met_at(&mut self, path: &str) -> Lookup
        ensures met { IsMet S.looking path.now result }
        ensures calls { self.new.notes.history.calls ≡ self.old.notes.history.calls }
    {
        match node_at(self.system, &mut self.directories, path) {
            Ok(answer) => answer,
            Err(error) => {
                self.reason = Some(error);
                Lookup::Unknown
            }
        }
    }

    /// Records a call of a walk.
    fn note(&mut self, walk: DirectoryWalk<'_>)
        requires { IsEvidentWalk S.looking (walk_call_of walk) }
        ensures { self.new.notes.history.calls ≡
            walked (walk_call_of walk.entry) ∷ self.old.notes.history.calls }
    {
        self.notes.add(&DirectoryCall::Walk(walk));
    }

    /// Writes over the bytes of the file that `open_to_write` opened under that name.
    fn overwrite_at(&mut self, name: &[u8], text: &[u8]) -> io::Result<()>
        ensures written { OnOk result ((file : _) × HasBytes S.changing S.Old.contents text.now file) }
        ensures calls { self.new.notes.history.calls ≡ self.old.notes.history.calls }
    {
        match &mut self.opened {
            Some(opened) if opened.name.as_slice() == name => {
                overwrite(self.system, &mut opened.file, text)
            }
            _ => Err(not_open()),
        }
    }
}

impl<S: Changes> Directory for Disk<'_, S> {
    ghost history = { λ d. d.notes.history.calls };

    ghost is_evident = { IsEvident S.looking S.changing S.File.remaining S.Old.remaining
        S.Old.contents };

    fn read(&mut self, name: &[u8], text: &mut Vec<u8>) -> Option<FileStat> {
        let read = self.read_at(name, text);
        let answer = self.kept(read);
        let text = text.as_slice();
        self.notes.add(&DirectoryCall::Read { name, text, answer });
        answer
    }

    fn open_to_write(&mut self, name: &[u8]) -> bool {
        let opened = self.opened_at(name);
        self.opened = self.kept(opened);
        let answer = self.opened.is_some();
        self.notes.add(&DirectoryCall::OpenToWrite { name, answer });
        answer
    }

    fn create(&mut self, name: &[u8]) -> Result<(), CreateError> {
        let answer = self.create_fresh(name);
        self.notes.add(&DirectoryCall::Create { name, answer });
        answer
    }

    fn append(&mut self, name: &[u8], bytes: &[u8]) -> Option<usize> {
        let written = append_to(self.system, &mut self.fresh, name, bytes);
        let answer = self.kept(written);
        self.notes.add(&DirectoryCall::Append {
            name,
            bytes,
            answer,
        });
        answer
    }

    fn set_mode_and_owner(&mut self, name: &[u8], like: &FileStat) -> bool {
        let set = make_like(self.system, &mut self.fresh, name, like);
        let answer = self.kept(set).is_some();
        let like = *like;
        self.notes
            .add(&DirectoryCall::SetModeAndOwner { name, like, answer });
        answer
    }

    fn sync(&mut self, name: &[u8]) -> bool {
        let synced = sync(self.system, &self.fresh, name);
        let answer = self.kept(synced).is_some();
        self.notes.add(&DirectoryCall::Sync { name, answer });
        answer
    }

    fn look(&mut self, name: &[u8]) -> Option<FileStat> {
        let found = self.found_at(name);
        let answer = self.kept(found);
        self.notes.add(&DirectoryCall::Look { name, answer });
        answer
    }

    fn rename(&mut self, from: &[u8], to: &[u8]) -> bool {
        let renamed = self.renamed_at(from, to);
        let answer = self.kept(renamed).is_some();
        self.notes.add(&DirectoryCall::Rename { from, to, answer });
        answer
    }

    fn overwrite(&mut self, name: &[u8], text: &[u8]) -> bool {
        let written = self.overwrite_at(name, text);
        let answer = self.kept(written).is_some();
        self.notes
            .add(&DirectoryCall::Overwrite { name, text, answer });
        answer
    }

    fn remove(&mut self, name: &[u8]) -> bool {
        let removed = self.removed_at(name);
        let answer = removed.is_ok();
        self.notes.add(&DirectoryCall::Remove { name, answer });
        answer
    }

    ghost evident = { λ d. d.notes.evident };
}

impl<S: Changes> Tree for Disk<'_, S> {
    fn node(&mut self, path: &str) -> Lookup {
        let answer = self.met_at(path);
        let path = path.as_bytes();
        self.note(DirectoryWalk::Met { path, answer });
        answer
    }

    fn leads_to_directory(&mut self, path: &str) -> bool {
        let leads = leads_to_directory(self.system, &mut self.directories, path);
        let answer = leads.unwrap_or(false);
        let path = path.as_bytes();
        self.note(DirectoryWalk::Followed { path, answer });
        answer
    }

    fn list(&mut self, directory: &str, names: &mut Vec<Vec<u8>>) -> bool {
        let listed = list_directory(
            self.system,
            &mut self.directories,
            self.alloc,
            directory,
            names,
        );
        let answer = self.kept(listed).is_some();
        let directory = directory.as_bytes();
        let names = names.as_slice();
        self.note(DirectoryWalk::Listed {
            directory,
            names,
            answer,
        });
        answer
    }

    fn reason(&self) -> Option<io::Error> {
        self.reason
    }

    fn sample(&mut self, name: &[u8], text: &mut Vec<u8>) -> Sample {
        let answer = self.sampled(name, text);
        let text = text.as_slice();
        self.notes
            .add(&DirectoryCall::Sample { name, text, answer });
        answer
    }
}

/// Returns the error of a call on a file that isn't open.
fn not_open() -> io::Error
    ensures { error_kind result ≡ ErrorKind.NotFound }
{
    io::Error::from(ErrorKind::NotFound)
}

/// Returns the new file, if it was created under this name.
fn new_file<'f, F>(fresh: &'f Option<Named<F>>, name: &[u8]) -> io::Result<&'f F>
    ensures { IfOk result (λ file. ForSome fresh.now
        (λ f. (f.name.items ≡ name.now) × (f.file ≡ file.now))) }
{
    match fresh {
        Some(fresh) if fresh.name.as_slice() == name => Ok(&fresh.file),
        _ => Err(not_open()),
    }
}

/// Appends a prefix of `bytes` to the new file with this name. Returns its length.
fn append_to<S: Changes>(
    system: &S,
    fresh: &mut Option<Named<S::New>>,
    name: &[u8],
    bytes: &[u8],
) -> io::Result<usize>
    ensures count { IfOk result (λ n. n ≤ length bytes.now) }
    ensures appended { IfOk result (λ n. (old : _) × (new : _) ×
        S.changing.appends old bytes.now n new) }
{
    match fresh {
        Some(fresh) if fresh.name.as_slice() == name => system.append(&mut fresh.file, bytes),
        _ => Err(not_open()),
    }
}

/// Gives the new file with this name the mode, owner and group of another one.
fn make_like<S: Changes>(
    system: &S,
    fresh: &mut Option<Named<S::New>>,
    name: &[u8],
    like: &FileStat,
) -> io::Result<()>
    ensures { OnOk result ((old : _) × (new : _) × GivesOwner S.changing like.now old new ×
        GivesMode S.changing like.now new) }
{
    match fresh {
        Some(fresh) if fresh.name.as_slice() == name => {
            set_mode_and_owner(system, &mut fresh.file, like)
        }
        _ => Err(not_open()),
    }
}

/// Waits until the bytes of the new file with this name are on the disk.
fn sync<S: Changes>(system: &S, fresh: &Option<Named<S::New>>, name: &[u8]) -> io::Result<()>
    ensures { OnOk result ((file : _) × S.changing.syncs_new file) }
{
    system.sync_new(new_file(fresh, name)?)
}
