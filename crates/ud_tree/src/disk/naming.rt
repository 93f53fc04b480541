//! Names: what is at a path, the names in a directory, and other names for a file.

ghost use Rattle.std.specs.Prelude.{◌≡◌, ◌≤◌, [], IfOk, IsSome, OnOk, length, map, true};
ghost use Rattle.std.specs.BTreeMap.{get_by_text};
ghost use Rattle.std.specs.Io.{ReadsAtMost};
ghost use Rattle.std.specs.Io.KnownBytes.{Consumes, IsAtEnd, ReadConsumes};
ghost use Rattle.ud_replace.specs.declared.node.Lookup.{Lookup};
ghost use Rattle.ud_tree.specs.Meeting.{At, KeepsMet};
ghost use Rattle.ud_tree.specs.Naming.{IsListed, IsMet, IsRenamed, LeadsToDirectory};
ghost use Rattle.ud_tree.specs.Naming.{MeetsFound, is_directory, is_proper, proper_names};
ghost use Rattle.ud_tree.specs.Paths.{slashed};

use crate::disk::directories::{Directories, text_of};
use crate::disk::opening::check_path;
use crate::disk::system::{Changes, Looks};
use crate::find_files::split_paths;
use crate::paths::directory;
use std::alloc::{AllocError, Global};
use std::io::{self, ErrorKind};
use ud_replace::{Lookup, NodeKind};

/// The capacity of the buffer for names.
const NAMES_BYTES: usize = 32 << 10;

/// Gives a new file another name.
pub(crate) fn rename_file<S: Changes>(
    system: &S,
    directories: &mut Directories<S>,
    file: &S::New,
    from: &[u8],
    to: &[u8],
) -> io::Result<()>
    ensures { OnOk result (IsRenamed S.looking S.changing from.now to.now) }
{
    let to = directories.place(system, to)?;
    let from = directories.place(system, from)?;
    check_path(system, &system.new_facts(file)?, from.as_str())?;
    system.rename(file, from.as_str(), to.as_str())
}

/// Removes a new file.
pub(crate) fn remove_file<S: Changes>(
    system: &S,
    directories: &mut Directories<S>,
    file: &S::New,
    name: &[u8],
) -> io::Result<()>
    ensures { OnOk result (At S.looking name.now S.changing.removes) }
{
    let path = directories.place(system, name)?;
    check_path(system, &system.new_facts(file)?, path.as_str())?;
    system.remove(file, path.as_str())
}

/// Returns what is at a path, without following a link. If it is a directory, records it as met.
///
/// # Errors
/// Fails if that can't be known. If the path's directory isn't there, nothing is at the path.
pub(crate) fn node_at<S: Looks>(
    system: &S,
    directories: &mut Directories<S>,
    path: &str,
) -> io::Result<Lookup>
    ensures found { IfOk result (IsMet S.looking path.now) }
    ensures met { IfOk result (λ answer. MeetsFound path.now answer directories.new.met) }
    ensures kept { KeepsMet directories.old.met directories.new.met }
{
    let place = match directories.place(system, path.as_bytes()) {
        Ok(place) => place,
        Err(error) => return absent_or(system, directory(path.as_bytes()), error),
    };
    let node = match system.look(place.as_str()) {
        Ok(found) => found.node,
        Err(error) if error.kind() == ErrorKind::NotFound => return Ok(Lookup::Absent),
        Err(error) => return Err(error),
    };
    if is_directory(node.kind) {
        directories.meet(path, node.id)?;
    }
    Ok(Lookup::Present(node))
}

/// Returns that nothing is at a path, if its directory isn't there. Else fails as before.
fn absent_or<S: Looks>(system: &S, directory: &[u8], error: io::Error) -> io::Result<Lookup>
    ensures { IfOk result
        (λ answer. (answer ≡ Lookup.Absent) × S.looking.lacks directory.now) }
{
    if error.kind() != ErrorKind::NotFound {
        return Err(error);
    }
    match system.look(text_of(directory)?) {
        Err(again) if again.kind() == ErrorKind::NotFound => Ok(Lookup::Absent),
        _ => Err(error),
    }
}

/// Returns whether a path leads to a directory. If so, records it as met.
pub(crate) fn leads_to_directory<S: Looks>(
    system: &S,
    directories: &mut Directories<S>,
    path: &str,
) -> io::Result<bool>
    ensures leads { IfOk result (λ answer. At S.looking path.now
        (LeadsToDirectory S.looking answer)) }
    ensures met { IfOk result (λ answer. answer ≡ true →
        IsSome (get_by_text directories.new.met (slashed path.now))) }
    ensures kept { KeepsMet directories.old.met directories.new.met }
{
    let place = directories.place(system, path.as_bytes())?;
    let node = system.follow(place.as_str())?.node;
    if !is_directory(node.kind) {
        return Ok(false);
    }
    directories.meet(path, node.id)?;
    Ok(true)
}

/// Appends the names in a directory, whose path ends in a slash.
pub(crate) fn list_directory<S: Looks>(
    system: &S,
    directories: &mut Directories<S>,
    alloc: Global,
    directory: &str,
    names: &mut Vec<Vec<u8>>,
) -> io::Result<()>
    requires empty { names.old.items ≡ [] }
    ensures { OnOk result (IsListed S.looking directory.now (map (λ n. n.items) names.new.items)) }
{
    let place = directories.within(system, directory)?;
    let mut packed = Vec::new(alloc);
    let mut listed = system.names(place.as_str())?;
    read_names(system, &mut listed, &mut packed)?;
    *names = proper_names(alloc, packed.as_slice())?;
    Ok(())
}

/// Reads the names that weren't read yet, each ended by a NUL.
///
/// # Errors
/// Fails if a read fails, or if memory runs out.
fn read_names<S: Looks>(system: &S, names: &mut S::Names, packed: &mut Vec<u8>) -> io::Result<()>
    requires empty { packed.old.items ≡ [] }
    ensures consumed { OnOk result (Consumes (S.looking.unread names.old)
        (S.looking.unread names.new) packed.new.items) }
    ensures ended { OnOk result (IsAtEnd (S.looking.unread names.new)) }
{
    let mut buffer = [0u8; NAMES_BYTES];
    for _block in 0..u64::MAX {
        let count = read_some_names(system, names, &mut buffer)?;
        if count == 0 {
            return Ok(());
        }
        packed.extend_from_slice(&buffer[..count])?;
    }
    unreachable!()
}

/// Does what `read_names` of the system does, and again if that was interrupted.
fn read_some_names<S: Looks>(
    system: &S,
    names: &mut S::Names,
    buffer: &mut [u8],
) -> io::Result<usize>
    requires whole { 4096 ≤ length buffer.old }
    ensures bound { ReadsAtMost result buffer.new }
    ensures bytes { ReadConsumes (S.looking.unread names.old) (S.looking.unread names.new) result
        buffer.new }
{
    for _try in 0..u64::MAX {
        match system.read_names(names, buffer) {
            Err(error) if error.kind() == ErrorKind::Interrupted => {}
            answer => return answer,
        }
    }
    Err(io::Error::from(ErrorKind::Interrupted))
}

/// Returns names that are each ended by a NUL, without those of the directory itself and its
/// parent.
fn proper_names(alloc: Global, packed: &[u8]) -> Result<Vec<Vec<u8>>, AllocError>
    ensures { IfOk result (λ names. map (λ n. n.items) names.items ≡ proper_names packed.now) }
{
    let mut names = Vec::new(alloc);
    for name in split_paths(alloc, packed)? {
        if is_proper(name.as_slice()) {
            names.push(name).map_err(AllocError::from)?;
        }
    }
    Ok(names)
}

/// Returns whether it is a directory.
fn is_directory(kind: NodeKind) -> bool
    ensures { result ≡ is_directory kind }
{
    match kind {
        NodeKind::Directory => true,
        NodeKind::File | NodeKind::Link | NodeKind::Other => false,
    }
}

/// Returns whether a name is neither that of the directory itself nor that of its parent.
fn is_proper(name: &[u8]) -> bool
    ensures { result ≡ is_proper name.now }
{
    name != b".".as_slice() && name != b"..".as_slice()
}
