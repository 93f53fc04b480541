//! Creates new files. Each is locked, which shows whether the run that made one still uses it.
//!
//! A run locks its new file while that is open, and the system unlocks it when the run ends, even
//! by a signal. So an unlocked new file was left over by a run.
//!
//! A new file's name is always the same, made from the file's. While it is there, no other run
//! replaces the file. Rejected: using the file that was left over, since another program may have
//! it open; a name that differs from run to run, with which one of two runs loses its update.

ghost use Rattle.std.specs.Prelude.{◌≡◌, IfOk, IfSome};
ghost use Rattle.std.specs.IoError.{error_kind};
ghost use Rattle.ud_tree.specs.Creating.{create_error, IsLeftOver, IsNew};

use crate::disk::opening::{check_same, open_to_write};
use crate::disk::system::Changes;
use std::io::{self, ErrorKind};
use ud_replace::CreateError;

/// Creates an empty file, which only the user may read and write, and locks it. A file left over by
/// a run under that name is removed first.
pub(crate) fn create_file<S: Changes>(system: &S, path: &str) -> io::Result<S::New>
    ensures { IfOk result (IsNew S.changing path.now) }
{
    match create_new(system, path) {
        Err(error) if error.kind() == ErrorKind::AlreadyExists => {
            // It stays locked until the new one is there.
            let Some(left) = left_over(system, path) else {
                return Err(error);
            };
            if system.remove_left_over(&left, path).is_err() {
                return Err(error);
            }
            create_new(system, path)
        }
        made => made,
    }
}

/// Creates a file where there is none, and locks it if the file system has locks.
fn create_new<S: Changes>(system: &S, path: &str) -> io::Result<S::New>
    ensures { IfOk result (IsNew S.changing path.now) }
{
    let mut file = system.create(path)?;
    // Another run may have taken the file for one that was left over, before it was locked.
    match system.lock_new(&mut file) {
        Ok(false) => Err(io::Error::from(ErrorKind::AlreadyExists)),
        Ok(true) | Err(_) => Ok(file),
    }
}

/// Opens and locks a file left over by a run. `None` if a run may still use it, or if that can't be
/// known.
fn left_over<S: Changes>(system: &S, path: &str) -> Option<S::Old>
    ensures { IfSome result (IsLeftOver S.changing path.now) }
{
    let mut file = open_to_write(system, path).ok()?;
    if !matches!(system.lock_old(&mut file), Ok(true)) {
        return None;
    }
    // The run that had locked it may have renamed it, and then closed it.
    let found = system.look_beside(&file, path).ok()?;
    let shown = system.old_facts(&file).ok()?;
    match check_same(&shown, &found) {
        Ok(()) => Some(file),
        Err(_) => None,
    }
}

/// Returns why no file was created.
pub(crate) fn create_error(error: &io::Error) -> CreateError
    ensures { result ≡ create_error (error_kind error.now) }
{
    match error.kind() {
        ErrorKind::PermissionDenied | ErrorKind::ReadOnlyFilesystem => CreateError::Denied,
        ErrorKind::AlreadyExists => CreateError::Taken,
        _ => CreateError::Failed,
    }
}
