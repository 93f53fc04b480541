//! Listing the names of one file.
//!
//! A file in C is listed by its folded text, in which each directive is on one line. If that has a
//! fault, or isn't restored to the file's text, it is listed by the text itself.

ghost use Rattle.std.specs.Prelude.{◌≡◌, [], false};
ghost use Rattle.ud_tree.specs.Lists.{AddsListed, FoldsToList, ListsInto, ListsTextInto};
ghost use Rattle.ud_tree.specs.Remainders.{mode_of};
ghost use Rattle.ud_tree.specs.Shown.{listed_by};

use crate::job::Job;
use crate::run_file::read_file;
use crate::tree::Tree;
use crate::walk::FileAt;
use std::alloc::AllocError;
use ud_engine::Watched;
use ud_model::Mode;
use ud_passes::Names;
use ud_replace::{ReplaceError, Update, folded, run_over};

/// The text that a file is listed by.
#[derive(Clone, Copy)]
struct ListedText<'t> {
    /// Its lines: those of the file, or the folded ones.
    lines: &'t [u8],
    /// True if they are the folded ones.
    folded: bool,
    /// The names that the run over them listed.
    names: &'t [u8],
}

/// Adds the names of a file to `names`, and its conditions whose names can't all be listed. If its
/// text has a fault, the names up to the fault count.
///
/// The only call reads the file, once.
///
/// # Errors
/// As `read_file` and `run_over`. `OutOfMemory` also if memory for the names can't be allocated.
pub(crate) fn list_file<T: Tree>(
    job: &Job<'_>,
    tree: &mut T,
    file: FileAt<'_>,
    names: &mut Names,
) -> Result<Update, ReplaceError>
    requires lists { names.old.lists_hidden ≡ job.now.arguments.now.list_hidden }
    ensures { ListsInto job.now.arguments.now.plan job.now.arguments.now.list_hidden
        file.entry.name.now (T.history tree.old) (T.history tree.new) names.old names.new result }
{
    let mut text = Vec::new(job.alloc);
    let _stat = read_file(tree, file, &mut text)?;
    let mut listed = Watched::new(Vec::<u8>::new(job.alloc));
    let ran = run_over(&job.arguments.plan.run, text.as_slice(), &mut listed);
    let output = listed.inner().as_slice();
    match ran {
        Ok(_) => list_text(job, file.name, text.as_slice(), output, names),
        Err(error) => {
            let _added = names.add(output);
            Err(error)
        }
    }
}

/// Adds what is listed of the text of a file, which has no fault. `output` are the names that the
/// run over it listed.
///
/// # Errors
/// `OutOfMemory` if memory can't be allocated. Then no condition was added.
#[tactic(auto, using(crate::proofs::ShownLemmas::lists_nothing))]
fn list_text(
    job: &Job<'_>,
    name: &[u8],
    text: &[u8],
    output: &[u8],
    names: &mut Names,
) -> Result<Update, ReplaceError>
    requires lists { names.old.lists_hidden ≡ job.now.arguments.now.list_hidden }
    ensures { ListsTextInto job.now.arguments.now name.now text.now output.now
        names.old names.new result }
{
    let mut listed = Watched::new(Vec::<u8>::new(job.alloc));
    let folded = list_folded(job, text, &mut listed)?;
    let listing = match &folded {
        Some(lines) => ListedText {
            lines: lines.as_slice(),
            folded: true,
            names: listed.inner().as_slice(),
        },
        None => ListedText {
            lines: text,
            folded: false,
            names: output,
        },
    };
    add_listed(job, name, listing, names)
}

/// Appends the names of the folded text of a file, and returns that text. Returns `None` if the
/// file is listed by its text itself.
///
/// # Errors
/// Fails if memory runs out.
fn list_folded(
    job: &Job<'_>,
    text: &[u8],
    listed: &mut Watched<Vec<u8>>,
) -> Result<Option<Vec<u8>>, AllocError>
    requires not_failed { listed.old.failed ≡ false }
    requires none { listed.old.inner.items ≡ [] }
    ensures { FoldsToList job.now.arguments.now text.now listed.new.inner.items result }
{
    if matches!(job.mode(), Mode::Plain) {
        return Ok(None);
    }
    let Some(lines) = folded(job.alloc, text)? else {
        return Ok(None);
    };
    match run_over(&job.arguments.plan.run, lines.as_slice(), listed) {
        Ok(_) => Ok(Some(lines)),
        Err(ReplaceError::Text(_)) => Ok(None),
        Err(_) => Err(AllocError),
    }
}

/// Adds the names of a file, and the conditions of the text that it is listed by: its own, or the
/// folded one.
///
/// # Errors
/// `OutOfMemory` if memory can't be allocated. Then no condition was added.
fn add_listed(
    job: &Job<'_>,
    name: &[u8],
    listing: ListedText<'_>,
    names: &mut Names,
) -> Result<Update, ReplaceError>
    requires lists { names.old.lists_hidden ≡ job.now.arguments.now.list_hidden }
    ensures { AddsListed (listed_by (mode_of job.now.arguments.now) listing.entry.folded
        job.now.arguments.now.list_hidden name.now listing.entry.lines.now listing.entry.names.now)
        names.old names.new result }
{
    names.add(listing.names)?;
    names.add_hidden(name, listing.lines, job.mode(), listing.folded)?;
    Ok(Update::Unchanged)
}
