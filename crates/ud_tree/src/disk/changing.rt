//! Changes files that are open: their owner and mode, their bytes, and their names.

ghost use Rattle.std.specs.Prelude.{◌≡◌, IfErr, IfOk, IsOk, OnErr, OnOk, false, true};
ghost use Rattle.ud_tree.specs.Changing.{GivesMode, GivesOwner, HasBytes, IsExcused, IsTried};
ghost use Rattle.ud_tree.specs.Changing.{has_owner, mode_for};

use crate::disk::facts::Facts;
use crate::disk::system::Changes;
use std::io::{self, ErrorKind, Write};
use ud_replace::FileStat;

/// The bits of a mode that permit reading, writing and running a file.
const ACCESS: u32 = 0o777;

/// Gives a file the owner and group of another one, or only the group, as the user may. Then gives
/// it that one's mode, but no other rights if the owner or the group differs.
///
/// # Errors
/// Fails if the owner, the group or the mode can't be set for another reason than that the user may
/// not. A mode that the file has already isn't set: some file systems refuse that.
pub(crate) fn set_mode_and_owner<S: Changes>(
    system: &S,
    file: &mut S::New,
    like: &FileStat,
) -> io::Result<()>
    ensures owner { OnOk result (GivesOwner S.changing like.now file.old file.new) }
    ensures mode { OnOk result (GivesMode S.changing like.now file.new) }
{
    give_owner(system, file, like)?;
    let now = system.new_facts(file)?;
    let mode = mode_for(like, &now);
    if now.stat.mode == mode {
        return Ok(());
    }
    system.set_mode(file, mode)
}

/// Gives a file the owner and group of another one, or only the group, as the user may.
///
/// # Errors
/// Fails if they can't be set for another reason.
fn give_owner<S: Changes>(system: &S, file: &mut S::New, like: &FileStat) -> io::Result<()>
    ensures { OnOk result (GivesOwner S.changing like.now file.old file.new) }
{
    if has_owner(like, &system.new_facts(file)?) {
        return Ok(());
    }
    let both = system.set_owner(file, Some(like.owner), like.group);
    if !was_set(both)? {
        let group = system.set_owner(file, None, like.group);
        was_set(group)?;
    }
    Ok(())
}

/// Returns whether a file has the owner and the group of `like`.
fn has_owner(like: &FileStat, now: &Facts) -> bool
    ensures { result ≡ has_owner like.now now.now }
{
    now.stat.owner == like.owner && now.stat.group == like.group
}

/// Returns the mode to give to a file: that of `like`, but without the bits that act for its owner
/// or group, if the file has others.
fn mode_for(like: &FileStat, now: &Facts) -> u32
    ensures { result ≡ mode_for like.now now.now }
{
    if has_owner(like, now) {
        like.mode
    } else {
        like.mode & ACCESS
    }
}

/// Returns whether an owner or a group was set: false if the user may not set it, if the user's
/// namespace doesn't have it, or if the file system has none.
///
/// # Errors
/// Fails if it couldn't be set for another reason, as a full quota.
fn was_set(answer: io::Result<()>) -> io::Result<bool>
    ensures set { IfOk result (λ set. set ≡ true → IsOk answer) }
    ensures unset { IfOk result (λ set. set ≡ false → IsExcused answer) }
    ensures tried { OnOk result (IsTried answer) }
    ensures error { IfErr result (λ e. IfErr answer (λ f. f ≡ e)) }
    ensures refused { OnErr result (¬ IsTried answer) }
{
    match answer {
        Ok(()) => Ok(true),
        Err(error) => match error.kind() {
            ErrorKind::PermissionDenied | ErrorKind::InvalidInput | ErrorKind::Unsupported => {
                Ok(false)
            }
            _ => Err(error),
        },
    }
}

/// Writes `text` over the bytes of a file, and cuts off the rest. Then waits until that is on the
/// disk.
pub(crate) fn overwrite<S: Changes>(system: &S, file: &mut S::Old, text: &[u8]) -> io::Result<()>
    ensures { OnOk result (HasBytes S.changing S.Old.contents text.now file.new) }
{
    let Ok(len) = u64::try_from(text.len()) else {
        return Err(io::Error::from(ErrorKind::FileTooLarge));
    };
    system.rewind(file)?;
    file.write_all(text)?;
    system.cut(file, len)?;
    system.sync_old(file)
}
