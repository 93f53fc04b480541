//! What became of a file: its fate, its edits, and its message.

ghost use Rattle.std.specs.Prelude.{◌≡◌};
ghost use Rattle.ud_tree.specs.Messages.{IsMessageOf, IsTold};
ghost use Rattle.ud_tree.specs.Fates.{fate_of};
ghost use Rattle.ud_tree.specs.Reports.{TellsOf};

use crate::counts::{Edits, Fate};
use crate::disk::is_other_file;
use crate::job::Job;
use crate::report::Report;
use crate::tree::Tree;
use std::io::{self, Write};
use ud_replace::{ReplaceError, Update};

/// The result of a file, and its edits.
#[derive(Clone, Copy)]
pub(crate) struct Done {
    /// The result of replacing it, or the one that a run would have.
    pub update: Result<Update, ReplaceError>,
    /// The edits of its text, made or only shown.
    pub edits: Edits,
}

impl Done {
    ghost use Rattle.std.specs.Prelude.{◌≡◌};
    ghost use Rattle.ud_tree.specs.Fates.{unedited};

    /// Returns `update` as the result of a file without edits.
    pub(crate) fn unedited(update: Result<Update, ReplaceError>) -> Done
        ensures { result ≡ unedited update }
    {
        Done {
            update,
            edits: Edits::none(),
        }
    }
}

/// Returns the fate of a file.
pub(crate) fn fate_of(update: Result<Update, ReplaceError>) -> Fate
    ensures { result ≡ fate_of update }
{
    match update {
        Ok(Update::Unchanged) => Fate::Same,
        Ok(Update::Replaced | Update::WrittenInto) => Fate::Changed,
        Err(_) => Fate::Faulty,
    }
}

impl<E: Write> Report<E> {
    /// Writes the message of a file's error, if any.
    pub(crate) fn tell_result<T: Tree>(
        &mut self,
        job: &Job<'_>,
        tree: &T,
        path: &[u8],
        update: Result<Update, ReplaceError>,
    )
        ensures { TellsOf (IsTold path.now update) self.old self.new }
    {
        if let Err(error) = update {
            self.file_error(job, tree, path, error);
        }
    }

    /// Writes the message of a file's error.
    fn file_error<T: Tree>(&mut self, job: &Job<'_>, tree: &T, path: &[u8], error: ReplaceError)
        ensures { TellsOf (IsMessageOf path.now error) self.old self.new }
    {
        match error {
            ReplaceError::Text(fault) => {
                self.text_fault(path, job.arguments.plan.run.settings(), fault);
            }
            ReplaceError::Read => self.failure(path, b"Cannot be read", tree.reason()),
            ReplaceError::OutOfMemory => self.fault(path, b"Out of memory"),
            ReplaceError::ReadOnly | ReplaceError::Write => {
                self.failure(path, b"Cannot be written", tree.reason());
            }
            ReplaceError::SeveralLinks => {
                self.fault(path, b"Has several links; -w writes into it");
            }
            ReplaceError::DirectoryDenied => self.fault(
                path,
                b"Its directory can't be written; -w writes into the file",
            ),
            ReplaceError::ChangedMeanwhile => self.fault(path, b"Changed meanwhile"),
            ReplaceError::Locked => self.locked(path),
            ReplaceError::NotRenamed => self.not_renamed(path, tree.reason()),
            ReplaceError::HalfWritten => self.failure(path, b"Half written", tree.reason()),
        }
    }

    /// Writes that the new file wasn't renamed. Writing into the old one is no way if another
    /// program has taken away the new one.
    fn not_renamed(&mut self, path: &[u8], reason: Option<io::Error>)
        ensures { TellsOf (IsMessageOf path.now ReplaceError.NotRenamed) self.old self.new }
    {
        match reason {
            Some(error) if is_other_file(error) => self.fault(path, b"Changed meanwhile"),
            _ => self.failure(path, b"Cannot be replaced; -w writes into it", reason),
        }
    }
}
