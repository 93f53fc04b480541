//! Reads a file, and runs over its text.

ghost use Rattle.std.specs.Prelude.{◌≡◌, [], IfOk, MatchResult};
ghost use Rattle.ud_replace.specs.MadeOutcomes.{IsFresh};
ghost use Rattle.ud_tree.specs.Runs.{ReadsOne};
ghost use Rattle.ud_tree.specs.Shown.{IsUnread, RunsFile, WasRead};

use crate::job::Job;
use crate::tree::Tree;
use crate::walk::FileAt;
use ud_replace::{FileStat, Kept, ReplaceError};

/// The result of the run over the text of a file.
#[derive(Clone, Copy)]
pub(crate) struct Ran {
    /// The facts about the file before it was read.
    pub stat: FileStat,
    /// True if the output differs.
    pub differs: bool,
}

/// Reads a file by one call. What was read is kept, whatever the result. Returns the facts about
/// the file from before.
///
/// # Errors
/// - `Read` if the file can't be read.
/// - `ChangedMeanwhile` if it isn't the file that the walk met.
#[tactic(auto, using(crate::proofs::NamedLemmas::readings))]
pub(crate) fn read_file<T: Tree>(
    tree: &mut T,
    file: FileAt<'_>,
    text: &mut Vec<u8>,
) -> Result<FileStat, ReplaceError>
    requires empty { text.old.items ≡ [] }
    ensures reads { ReadsOne file.entry.name.now text.new.items (T.history tree.old)
        (T.history tree.new) }
    ensures read { MatchResult result
        (λ stat. WasRead file.entry.name.now text.new.items stat (T.history tree.old)
        (T.history tree.new)) (IsUnread file.entry.name.now (T.history tree.old)
        (T.history tree.new)) }
{
    match tree.read(file.name, text) {
        None => Err(ReplaceError::Read),
        Some(stat) => {
            if !stat.is_of(file.id) {
                return Err(ReplaceError::ChangedMeanwhile);
            }
            Ok(stat)
        }
    }
}

/// Reads a file, as `read_file` does, and keeps its text and the outcome.
///
/// # Errors
/// As `read_file` and `Kept::run`.
pub(crate) fn run_file<T: Tree>(
    job: &Job<'_>,
    tree: &mut T,
    file: FileAt<'_>,
    kept: &mut Kept,
) -> Result<Ran, ReplaceError>
    requires { IsFresh kept.old }
    ensures reads { ReadsOne file.entry.name.now kept.new.text.items (T.history tree.old)
        (T.history tree.new) }
    ensures text { IfOk result (λ ran. WasRead file.entry.name.now kept.new.text.items ran.stat
        (T.history tree.old) (T.history tree.new)) }
    ensures ran { RunsFile job.now.arguments.now.plan file.entry.name.now (T.history tree.old)
        (T.history tree.new) kept.new result }
{
    let stat = read_file(tree, file, &mut kept.text)?;
    let differs = kept.run(job.alloc, &job.arguments.plan)?;
    Ok(Ran { stat, differs })
}
