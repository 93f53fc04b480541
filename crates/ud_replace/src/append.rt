//! Appends all of some bytes.

ghost use Rattle.ud_replace.specs.Filling.{AppendsAll};

use crate::directory::Directory;

/// Appends all of `bytes` to a file, in as many calls as the directory needs. Returns whether all
/// were appended.
///
/// A call that fails, or that appends none of the bytes, is the last one.
pub(crate) fn append_all<F: Directory>(directory: &mut F, name: &[u8], bytes: &[u8]) -> bool
    ensures { AppendsAll name.now bytes.now (F.history directory.old) (F.history directory.new)
        result }
{
    let mut rest = bytes;
    while !rest.is_empty() {
        match directory.append(name, rest) {
            None => return false,
            Some(0) => return false,
            Some(count) => rest = &rest[count..],
        }
    }
    true
}
