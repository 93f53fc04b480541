//! Appending bytes to an array with enough capacity.

ghost use Rattle.std.specs.Prelude.{◌≡◌, ◌+◌, ◌≤◌, ◌++◌, length};

use arrayvec::ArrayVec;

/// Appends `more`, which fits.
pub(crate) fn append<const ROOM: usize>(bytes: &mut ArrayVec<u8, ROOM>, more: &[u8])
    requires { length bytes.old.items + length more.now ≤ ROOM }
    ensures { bytes.new.items ≡ bytes.old.items ++ more.now }
{
    let _ = bytes.try_extend_from_slice(more);
}
