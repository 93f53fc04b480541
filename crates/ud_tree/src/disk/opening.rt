//! Opens files, and reads them.

ghost use Rattle.std.specs.Prelude.{◌≡◌, ◌⊎◌, [], IfOk, OnOk, is_ok};
ghost use Rattle.ud_replace.specs.declared.node.NodeKind.{NodeKind};
ghost use Rattle.ud_tree.specs.Evidence.{Finds, is_same};
ghost use Rattle.ud_tree.specs.Opening.{IsFound, IsRead, IsReadAgain, OpensToWrite, Shows};

use crate::disk::directories::other_file;
use crate::disk::facts::{Facts, is_same};
use crate::disk::reading::read_text;
use crate::disk::system::{Changes, Looks};
use std::io::{self, ErrorKind};
use ud_replace::FileStat;

/// Reads a regular file, and returns the facts about it from before. The opened file is the one
/// that was looked at, even if another file has its name by then.
pub(crate) fn read_file<S: Looks>(
    system: &S,
    path: &str,
    text: &mut Vec<u8>,
) -> io::Result<FileStat>
    requires empty { text.old.items ≡ [] }
    ensures { IfOk result (IsRead S.looking S.File.remaining path.now text.new.items) }
{
    let found = system.look(path)?;
    let stat = found.regular()?;
    let mut file = system.open(path, &found)?;
    check_same(&system.facts(&file)?, &found)?;
    read_text(&mut file, stat.version.size, text)?;
    Ok(stat)
}

/// Does what `read_file` does, with a file that is open already. If another file has its name now,
/// opens that one. So a pipe with that name isn't waited for. The file is locked first, so that no
/// other run writes into it between this reading and what follows.
pub(crate) fn read_again<S: Changes>(
    system: &S,
    path: &str,
    file: &mut S::Old,
    text: &mut Vec<u8>,
) -> io::Result<FileStat>
    requires empty { text.old.items ≡ [] }
    ensures { IfOk result
        (IsReadAgain S.looking S.changing S.Old.remaining path.now text.new.items) }
{
    lock_open(system, file)?;
    let found = system.look(path)?;
    let stat = found.regular()?;
    reopen(system, path, &found, file)?;
    system.rewind(file)?;
    read_text(file, stat.version.size, text)?;
    Ok(stat)
}

/// Opens a file again if another one was found at its path.
fn reopen<S: Changes>(system: &S, path: &str, found: &Facts, file: &mut S::Old) -> io::Result<()>
    requires held { S.changing.locks file.old ⊎ S.changing.lacks_locks file.old }
    requires regular { found.now.node.kind ≡ NodeKind.File }
    requires looked { S.looking.looked path.now found.now }
    ensures shown { OnOk result (Shows S.changing.shows found.now file.new) }
    ensures held { OnOk result (S.changing.locks file.new ⊎ S.changing.lacks_locks file.new) }
{
    if is_same(system.old_facts(file)?.node.id, found.node.id) {
        return Ok(());
    }
    *file = system.update(path, found)?;
    lock_open(system, file)?;
    check_same(&system.old_facts(file)?, found)
}

/// Locks a file, if its file system has locks. So no other run writes into it until it is closed.
///
/// # Errors
/// Fails if another run has locked it.
fn lock_open<S: Changes>(system: &S, file: &mut S::Old) -> io::Result<()>
    ensures { OnOk result (S.changing.locks file.new ⊎ S.changing.lacks_locks file.new) }
{
    match system.lock_old(file) {
        Ok(false) => Err(io::Error::new(ErrorKind::AlreadyExists, "another run is at it")),
        Ok(true) | Err(_) => Ok(()),
    }
}

/// Opens a regular file for reading and writing, and keeps its bytes.
pub(crate) fn open_to_write<S: Changes>(system: &S, path: &str) -> io::Result<S::Old>
    ensures { IfOk result (OpensToWrite S.looking S.changing path.now) }
{
    let found = system.look(path)?;
    let _ = found.regular()?;
    let file = system.update(path, &found)?;
    let shown = system.old_facts(&file)?;
    if is_same(shown.node.id, found.node.id) {
        return Ok(file);
    }
    // An overlay file system copies a file when it is opened for writing.
    check_same(&shown, &system.look(path)?)?;
    Ok(file)
}

/// Returns the facts about a regular file, without following a link.
pub(crate) fn look_at<S: Looks>(system: &S, path: &str) -> io::Result<FileStat>
    ensures { IfOk result (IsFound S.looking path.now) }
{
    system.look(path)?.regular()
}

/// Checks that a look at a path finds the file with these facts. Another program may have put
/// another file there.
///
/// # Errors
/// Fails if it doesn't, or if that can't be known.
pub(crate) fn check_path<S: Looks>(system: &S, shown: &Facts, path: &str) -> io::Result<()>
    ensures { OnOk result (Finds S.looking path.now shown.now) }
{
    match system.look(path) {
        Ok(found) => check_same(shown, &found),
        Err(error) if error.kind() == ErrorKind::NotFound => Err(other_file()),
        Err(error) => Err(error),
    }
}

/// Checks that the facts about an open file are about the one that was found.
///
/// # Errors
/// Fails if they are about another one.
pub(crate) fn check_same(shown: &Facts, found: &Facts) -> io::Result<()>
    ensures { is_ok result ≡ is_same shown.now.node.id found.now.node.id }
{
    if is_same(shown.node.id, found.node.id) {
        Ok(())
    } else {
        Err(other_file())
    }
}
