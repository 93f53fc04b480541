//! Writes all of some bytes, or as many as a writer takes before it fails.

ghost use Rattle.std.specs.Prelude.{◌≡◌, [], false, not};
ghost use Rattle.std.specs.List.{flat_map};
ghost use Rattle.ud_io.specs.Streams.{Sends, stream_of};
ghost use Rattle.ud_io.specs.Watched.{AppendsAllOrPrefix};

use crate::watched::Watched;
use std::io::Write;

/// Writes all of `bytes`, in as many calls as the writer needs. Makes no call if `bytes` is empty.
///
/// # Errors
/// `false` if a write fails. A prefix of `bytes` was written, and `out` is fused.
pub fn write_all<W: Write>(out: &mut Watched<W>, bytes: &[u8]) -> bool
    requires not_failed { out.old.failed ≡ false }
    ensures written { AppendsAllOrPrefix out.new.failed (W.contents out.old.inner)
        (W.contents out.new.inner)
        bytes.now }
    ensures failed { out.new.failed ≡ not result }
    ensures empty { bytes.now ≡ [] → out.new ≡ out.old }
{
    let mut rest = bytes;
    while !rest.is_empty() {
        match out.write(rest) {
            Some(count) => rest = &rest[count..],
            None => return false,
        }
    }
    true
}

/// Writes all of `bytes`, unless a write has already failed.
pub fn send<W: Write>(out: &mut Watched<W>, bytes: &[u8])
    ensures { Sends (stream_of W.contents out.old) (stream_of W.contents out.new) bytes.now }
{
    if out.failed() {
        return;
    }
    write_all(out, bytes);
}

/// Writes parts in order, until a write fails.
pub fn send_parts<W: Write>(out: &mut Watched<W>, parts: &[&[u8]])
    ensures { Sends (stream_of W.contents out.old) (stream_of W.contents out.new)
        (flat_map (λ p. p.now) parts.now) }
{
    for part in parts {
        send(out, part);
    }
}
