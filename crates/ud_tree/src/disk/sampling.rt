//! Reads files that are only searched: all of a text, and no more than the first bytes of any other
//! file.
//!
//! Such a file may be a disk image or a database. So its first bytes decide whether more is read,
//! and the memory for it depends on what was read, not on the size that it claims to have.

ghost use Rattle.std.specs.Prelude.{◌≡◌, ◌⊎◌, ◌<◌, ◌≤◌, [], IfOk, OnOk, length};
ghost use Rattle.std.specs.Io.KnownBytes.{IsAtEnd};
ghost use Rattle.ud_replace.specs.declared.node.Sample.{Sample};
ghost use Rattle.ud_tree.specs.Meeting.{At};
ghost use Rattle.ud_tree.specs.Sampling.{is_text, IsSampled, ReadsOn, ReadsSample};

use crate::disk::Disk;
use crate::disk::opening::check_same;
use crate::disk::reading::{is_utf16, read_block};
use crate::disk::system::{Changes, Looks};
use std::io::{self, Read};
use ud_replace::Sample;

/// The number of first bytes of a file that tell whether it is text.
const PROBE_BYTES: usize = 8_192;

/// The most bytes of a text that is searched.
const SEARCH_BYTES: usize = 64 << 20;

/// The most bytes that are read at once.
const BLOCK_BYTES: usize = 4 << 20;

impl<S: Changes> Disk<'_, S> {
    /// Reads the file that is at a name, to search it. Returns `Unread` if it can't be read.
    pub(crate) fn sampled(&mut self, name: &[u8], text: &mut Vec<u8>) -> Sample
        requires empty { text.old.items ≡ [] }
        ensures sampled { ¬ (result ≡ Sample.Unread) → At S.looking name.now
            (λ place. IsSampled S.looking S.File.remaining place text.new.items result) }
        ensures calls { self.new.notes.history.calls ≡ self.old.notes.history.calls }
    {
        match self.sample_at(name, text) {
            Ok(sample) => sample,
            Err(_) => Sample::Unread,
        }
    }

    /// Reads the file that is at a name, to search it.
    fn sample_at(&mut self, name: &[u8], text: &mut Vec<u8>) -> io::Result<Sample>
        requires empty { text.old.items ≡ [] }
        ensures sampled { IfOk result (λ sample. At S.looking name.now
            (λ place. IsSampled S.looking S.File.remaining place text.new.items sample)) }
        ensures calls { self.new.notes.history.calls ≡ self.old.notes.history.calls }
    {
        let place = self.directories.place(self.system, name)?;
        self.opened = None;
        sample_file(self.system, place.as_str(), text)
    }
}

/// Reads a regular file to search it. The opened file is the one that was looked at, even if
/// another file has its name by then.
fn sample_file<S: Looks>(system: &S, path: &str, text: &mut Vec<u8>) -> io::Result<Sample>
    requires empty { text.old.items ≡ [] }
    ensures { IfOk result (IsSampled S.looking S.File.remaining path.now text.new.items) }
{
    let found = system.look(path)?;
    let stat = found.regular()?;
    let mut file = system.open(path, &found)?;
    check_same(&system.facts(&file)?, &found)?;
    read_sample(&mut file, stat.version.size, text)
}

/// Reads a file that is to have `size` bytes, to search it.
fn read_sample<F: Read>(file: &mut F, size: u64, text: &mut Vec<u8>) -> io::Result<Sample>
    requires empty { text.old.items ≡ [] }
    ensures { IfOk result (ReadsSample (F.remaining file.old) (F.remaining file.new) size
        text.new.items) }
{
    read_most(file, size, PROBE_BYTES, text)?;
    if is_utf16(text.as_slice()) {
        return Ok(Sample::Utf16);
    }
    if !is_text(text.as_slice()) {
        return Ok(Sample::Binary);
    }
    if text.len() < PROBE_BYTES {
        return Ok(Sample::Whole);
    }
    if size > SEARCH_BYTES as u64 {
        return Ok(Sample::TooLarge);
    }
    read_most(file, size, SEARCH_BYTES + 1, text)?;
    if text.len() > SEARCH_BYTES {
        return Ok(Sample::TooLarge);
    }
    Ok(Sample::Whole)
}

/// Reads more of a file that is to have `size` bytes, until it ends or `text` has `maximum` bytes.
/// Each read takes at most as many bytes as `text` has, or `PROBE_BYTES`.
fn read_most<F: Read>(file: &mut F, size: u64, maximum: usize, text: &mut Vec<u8>) -> io::Result<()>
    requires some { length text.old.items ≤ maximum }
    ensures reads { OnOk result
        (ReadsOn (F.remaining file.old) (F.remaining file.new) text.old.items text.new.items) }
    ensures within { OnOk result (length text.new.items ≤ maximum) }
    ensures ended { OnOk result (length text.new.items < maximum →
        IsAtEnd (F.remaining file.new) ⊎ (length text.new.items ≡ size)) }
{
    for _block in 0..u64::MAX {
        let len = text.len();
        let block = len.clamp(PROBE_BYTES, BLOCK_BYTES).min(maximum - len);
        if block == 0 {
            return Ok(());
        }
        let count = read_block(file, block, text)?;
        if count == 0 || (count < block && text.len() as u64 == size) {
            return Ok(());
        }
    }
    unreachable!()
}

/// Returns whether a file is text: whether none of its first bytes is 0.
fn is_text(bytes: &[u8]) -> bool
    ensures { result ≡ is_text bytes.now }
{
    let (probe, _) = bytes.split_at(PROBE_BYTES.min(bytes.len()));
    !probe.contains(&0)
}
