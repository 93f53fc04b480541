//! Replaces one file by the output for it.
//!
//! The file is read again just before the rename. Times aren't enough: an edit may come within one
//! tick of the clock, and an overlay file system gives a file another number and other times when
//! it is opened for writing. Rejected: taking the text anew if the bytes differ, since a second run
//! does that.

ghost use Rattle.std.specs.Prelude.{◌≡◌, ◌<◌, ℕ, List, true, false, is_ok};
ghost use Rattle.ud_replace.specs.Filling.{LooksAgain, Confirms, Fills};
ghost use Rattle.ud_replace.specs.MadeOutcomes.{IsFresh};
ghost use Rattle.ud_replace.specs.Replacing.{Overwrites, RenamesAt, PutsAt, ReplacesAt, KeepsAt};
ghost use Rattle.ud_replace.specs.TextOutcomes.{TextOptions, IsPlanned};

use crate::append::append_all;
use crate::directory::{CreateError, Directory};
use crate::error::{ReplaceError, Update};
use crate::kept::Kept;
use crate::node::FileId;
use crate::stat::FileStat;
use crate::text_plan::TextPlan;
use std::alloc::Global;

/// A file to replace.
#[derive(Clone, Copy)]
pub struct Target<'a> {
    /// The file's name.
    pub name: &'a [u8],
    /// Its identity.
    pub id: FileId,
    /// The name of the file to create in the same directory. While it is taken, no other run that
    /// uses the same name replaces the file.
    pub fresh: &'a [u8],
    /// True if the output may be written into a file that has several links, whose directory can't
    /// be written, or that nothing can be renamed over.
    pub write_into: bool,
}

/// A file's text, and the facts about the file from before it was read.
#[derive(Clone, Copy)]
struct Before<'a> {
    alloc: Global,
    text: &'a [u8],
    stat: FileStat,
}

/// Replaces a file by the output for it, as the plan asks.
///
/// The file is read once. If its text has no fault and the output differs, the file `fresh` is
/// created in the same directory. It gets the output, and the file's mode and owner, and its bytes
/// are synced to disk. Then the file is read again. If it still has the same bytes, `fresh` is
/// renamed over it.
///
/// So only the rename touches the file, after every byte of the output has reached the disk
/// (`law_one_rename`). After each call the file has its old bytes or all of the new ones, if the
/// answers are true (`law_old_or_new`). Bytes that another program writes into the file between the
/// last look and the rename are lost.
///
/// If `write_into` is set, a file that can't be replaced is written into. For such a file the two
/// laws don't hold.
///
/// If the plan lists names, nothing is replaced.
///
/// # Errors
/// No file is changed, and `fresh` is removed again. Only after `HalfWritten` may the file have any
/// bytes.
///
/// - `Read` if the file can't be read, or read again, and `OutOfMemory` if memory for the
///   output can't be allocated.
/// - `Text` if the text has a fault.
/// - `SeveralLinks`, `DirectoryDenied` and `NotRenamed` if the file can only be written into, and
///   `write_into` isn't set.
/// - `ReadOnly` if the user may not write into the file.
/// - `Locked` if there is already a file `fresh`.
/// - `ChangedMeanwhile` if the file isn't `id`, or has changed since it was read.
/// - `Write` if another call fails.
/// - `HalfWritten` if the file was to be written into, and neither the output nor then the old
///   bytes could be.
pub fn replace<F: Directory>(
    alloc: Global,
    plan: &TextPlan,
    directory: &mut F,
    target: &Target<'_>,
) -> Result<Update, ReplaceError>
    ensures calls { (text : List ℕ) × ((o : TextOptions) → IsPlanned plan.now o →
        ReplacesAt o target.now text (F.history directory.old) (F.history directory.new) result) }
{
    let mut kept = Kept::new(alloc);
    replace_keeping(alloc, plan, directory, target, &mut kept)
}

/// Replaces a file as `replace` does, and keeps its text and the output for it. The output is for
/// the text that was read, even if the file is unchanged.
///
/// # Errors
/// As `replace`. What was read is then kept, if reading failed too, with any output.
pub fn replace_keeping<F: Directory>(
    alloc: Global,
    plan: &TextPlan,
    directory: &mut F,
    target: &Target<'_>,
    kept: &mut Kept,
) -> Result<Update, ReplaceError>
    requires { IsFresh kept.old }
    ensures calls { (o : TextOptions) → IsPlanned plan.now o → ReplacesAt o target.now
        kept.new.text.items (F.history directory.old) (F.history directory.new) result }
    ensures output { (o : TextOptions) → IsPlanned plan.now o → is_ok result ≡ true →
        KeepsAt o target.now (F.history directory.old) (F.history directory.new) result kept.new }
{
    let Some(stat) = directory.read(target.name, &mut kept.text) else {
        return Err(ReplaceError::Read);
    };
    if !stat.is_of(target.id) {
        return Err(ReplaceError::ChangedMeanwhile);
    }
    let differs = kept.run(alloc, plan)?;
    if !differs {
        return Ok(Update::Unchanged);
    }
    let text = kept.text.as_slice();
    let before = Before { alloc, text, stat };
    put(directory, target, &before, kept.output())
}

/// Puts the output in the file's place, or into the file.
fn put<F: Directory>(
    directory: &mut F,
    target: &Target<'_>,
    before: &Before<'_>,
    output: &[u8],
) -> Result<Update, ReplaceError>
    ensures { PutsAt target.now before.now.text.now output.now before.now.stat
        (F.history directory.old) (F.history directory.new) result }
{
    if before.stat.links > 1 {
        return put_into(directory, target, before, output);
    }
    if !directory.open_to_write(target.name) {
        return Err(ReplaceError::ReadOnly);
    }
    rename_over(directory, target, before, output)
}

/// Puts the output into a file that has several links.
fn put_into<F: Directory>(
    directory: &mut F,
    target: &Target<'_>,
    before: &Before<'_>,
    output: &[u8],
) -> Result<Update, ReplaceError>
    requires several { 1 < before.now.stat.links }
    ensures { PutsAt target.now before.now.text.now output.now before.now.stat
        (F.history directory.old) (F.history directory.new) result }
{
    if !target.write_into {
        return Err(ReplaceError::SeveralLinks);
    }
    if !directory.open_to_write(target.name) {
        return Err(ReplaceError::ReadOnly);
    }
    overwrite(directory, target.name, before, output)
}

/// Makes a file with the output, and renames it over the file.
fn rename_over<F: Directory>(
    directory: &mut F,
    target: &Target<'_>,
    before: &Before<'_>,
    output: &[u8],
) -> Result<Update, ReplaceError>
    ensures { RenamesAt target.now before.now.text.now output.now before.now.stat
        (F.history directory.old) (F.history directory.new) result }
{
    match directory.create(target.fresh) {
        Ok(()) => match fill(directory, target, before, output) {
            Ok(true) => Ok(Update::Replaced),
            Ok(false) => {
                let _gone = directory.remove(target.fresh);
                if target.write_into {
                    overwrite(directory, target.name, before, output)
                } else {
                    Err(ReplaceError::NotRenamed)
                }
            }
            Err(error) => {
                let _gone = directory.remove(target.fresh);
                Err(error)
            }
        },
        Err(CreateError::Failed) => Err(ReplaceError::Write),
        Err(CreateError::Taken) => Err(ReplaceError::Locked),
        Err(CreateError::Denied) => {
            if target.write_into {
                overwrite(directory, target.name, before, output)
            } else {
                Err(ReplaceError::DirectoryDenied)
            }
        }
    }
}

/// Fills the new file with the output, and renames it over the file. Returns whether the rename was
/// done.
///
/// # Errors
/// As `confirm`. `Write` if the new file can't be filled.
fn fill<F: Directory>(
    directory: &mut F,
    target: &Target<'_>,
    before: &Before<'_>,
    output: &[u8],
) -> Result<bool, ReplaceError>
    ensures { Fills target.now.name.now target.now.fresh.now before.now.text.now output.now
        before.now.stat (F.history directory.old) (F.history directory.new) result }
{
    if !append_all(directory, target.fresh, output) {
        return Err(ReplaceError::Write);
    }
    if !directory.set_mode_and_owner(target.fresh, &before.stat) {
        return Err(ReplaceError::Write);
    }
    if !directory.sync(target.fresh) {
        return Err(ReplaceError::Write);
    }
    match confirm(directory, target.name, before) {
        Err(error) => Err(error),
        Ok(()) => Ok(directory.rename(target.fresh, target.name)),
    }
}

/// Writes the output into the file. If that fails, writes the old bytes into it.
fn overwrite<F: Directory>(
    directory: &mut F,
    name: &[u8],
    before: &Before<'_>,
    output: &[u8],
) -> Result<Update, ReplaceError>
    ensures { Overwrites name.now before.now.text.now output.now before.now.stat
        (F.history directory.old) (F.history directory.new) result }
{
    if let Err(error) = confirm(directory, name, before) {
        return Err(error);
    }
    if directory.overwrite(name, output) {
        return Ok(Update::WrittenInto);
    }
    if directory.overwrite(name, before.text) {
        return Err(ReplaceError::Write);
    }
    Err(ReplaceError::HalfWritten)
}

/// Reads a file again, and checks that it is as it was. Compares its bytes, since its times may be
/// those of an older version, and since an overlay file system copies it when it is opened for
/// writing.
///
/// # Errors
/// `Read` if the file can't be read, and `ChangedMeanwhile` if it isn't as it was.
fn confirm<F: Directory>(
    directory: &mut F,
    name: &[u8],
    before: &Before<'_>,
) -> Result<(), ReplaceError>
    ensures { Confirms name.now before.now.text.now before.now.stat (F.history directory.old)
        (F.history directory.new) result }
{
    let mut again = Vec::new(before.alloc);
    match directory.read(name, &mut again) {
        None => Err(ReplaceError::Read),
        Some(seen) => {
            if again.as_slice() != before.text {
                return Err(ReplaceError::ChangedMeanwhile);
            }
            if !before.stat.has_facts_of(&seen) {
                return Err(ReplaceError::ChangedMeanwhile);
            }
            if !is_unchanged(directory, name, &seen) {
                return Err(ReplaceError::ChangedMeanwhile);
            }
            Ok(())
        }
    }
}

/// Looks at a file again. Returns whether its version is the one in `stat`.
fn is_unchanged<F: Directory>(directory: &mut F, name: &[u8], stat: &FileStat) -> bool
    ensures { LooksAgain name.now stat.now (F.history directory.old) (F.history directory.new)
        result }
{
    match directory.look(name) {
        Some(seen) => seen.version == stat.version,
        None => false,
    }
}
