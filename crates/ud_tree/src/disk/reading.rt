//! Reads the bytes of a file.

ghost use Rattle.std.specs.Prelude.{◌≡◌, ◌<◌, ◌≤◌, [], IfOk, OnOk, OnErr, false, is_err};
ghost use Rattle.std.specs.Io.{ReadsAtMost};
ghost use Rattle.std.specs.Io.KnownBytes.{Keeps, ReadConsumes};
ghost use Rattle.ud_tree.specs.Reading.{begins_section, ends_in_long_line, has_bad_mark};
ghost use Rattle.ud_tree.specs.Reading.{is_utf16, ReadsAll, ReadsBlock};

use std::io::{self, ErrorKind, Read};
use ud_model::MAX_LINE_BYTES;
use ud_model::bytes::skip_white;

/// The most bytes reserved before a file is read, and read between two checks of its last line. A
/// file that is larger, or claims to be, takes more as it is read.
const BLOCK_BYTES: u64 = 16 << 20;

/// The least bytes read at once, for a file that claims to be smaller.
const SMALL_BLOCK_BYTES: u64 = 8 << 10;

/// Reads the rest of a file, which is to have `size` bytes.
///
/// # Errors
/// Fails also if the bytes aren't read as the text that they are.
pub(crate) fn read_text<F: Read>(file: &mut F, size: u64, text: &mut Vec<u8>) -> io::Result<()>
    requires empty { text.old.items ≡ [] }
    ensures all { OnOk result
        (ReadsAll (F.remaining file.old) (F.remaining file.new) size text.new.items) }
    ensures marks { OnOk result (has_bad_mark text.new.items ≡ false) }
{
    read_bytes(file, size, text)?;
    check_marks(text.as_slice())
}

/// Reads the bytes of the rest of a file: by one read, if it has the size that was found and at
/// most `BLOCK_BYTES`. Stops once a line over the limit is found: most such files aren't text, and
/// may be larger than memory.
fn read_bytes<F: Read>(file: &mut F, size: u64, text: &mut Vec<u8>) -> io::Result<()>
    requires empty { text.old.items ≡ [] }
    ensures { OnOk result
        (ReadsAll (F.remaining file.old) (F.remaining file.new) size text.new.items) }
{
    // A block is larger than the file, so a read that ends at its size was cut by its end.
    let block = size.clamp(SMALL_BLOCK_BYTES, BLOCK_BYTES) as usize + 1;
    for _block in 0..u64::MAX {
        let count = read_block(file, block, text)?;
        if count == 0 || (count < block && text.len() as u64 == size) {
            return Ok(());
        }
        if ends_in_long_line(text.as_slice()) {
            return Err(io::Error::new(ErrorKind::FileTooLarge, "line too long"));
        }
    }
    unreachable!()
}

/// Appends at most `block` bytes of a file by one read that isn't interrupted. Returns how many.
pub(crate) fn read_block<F: Read>(
    file: &mut F,
    block: usize,
    text: &mut Vec<u8>,
) -> io::Result<usize>
    requires some { 0 < block }
    ensures bounded { IfOk result (λ count. count ≤ block) }
    ensures reads { IfOk result (ReadsBlock (F.remaining file.old) (F.remaining file.new)
        text.old.items text.new.items) }
    ensures kept { OnErr result (text.new.items ≡ text.old.items) }
    ensures unread { OnErr result (Keeps (F.remaining file.old) (F.remaining file.new)) }
{
    let before = text.len();
    text.resize(before.saturating_add(block), 0)?;
    match read_retrying(file, &mut text.as_mut_slice()[before..]) {
        Ok(count) => {
            text.truncate(before + count);
            Ok(count)
        }
        Err(error) => {
            text.truncate(before);
            Err(error)
        }
    }
}

/// Reads once, and again if that was interrupted.
fn read_retrying<F: Read>(file: &mut F, buffer: &mut [u8]) -> io::Result<usize>
    ensures bound { ReadsAtMost result buffer.new }
    ensures bytes { ReadConsumes (F.remaining file.old) (F.remaining file.new) result buffer.new }
{
    for _try in 0..u64::MAX {
        match file.read(buffer) {
            Err(error) if error.kind() == ErrorKind::Interrupted => {}
            answer => return answer,
        }
    }
    Err(io::Error::from(ErrorKind::Interrupted))
}

/// Returns whether the last line of a text is over the limit.
fn ends_in_long_line(text: &[u8]) -> bool
    ensures { result ≡ ends_in_long_line text.now }
{
    match text.len().checked_sub(MAX_LINE_BYTES + 1) {
        Some(start) => !text[start..].contains(&b'\n'),
        None => false,
    }
}

/// Checks that a text has no byte order mark of UTF-16, whose directives wouldn't be found, and
/// none before a condition in its first line, which wouldn't be found.
fn check_marks(text: &[u8]) -> io::Result<()>
    ensures { is_err result ≡ has_bad_mark text.now }
{
    if is_utf16(text) {
        return Err(io::Error::new(ErrorKind::InvalidData, "text in UTF-16"));
    }
    if text.starts_with(b"\xef\xbb\xbf") && begins_section(&text[3..]) {
        let reason = "byte order mark before #if";
        return Err(io::Error::new(ErrorKind::InvalidData, reason));
    }
    Ok(())
}

/// Returns whether a text begins with a byte order mark of UTF-16.
pub(crate) fn is_utf16(text: &[u8]) -> bool
    ensures { result ≡ is_utf16 text.now }
{
    text.starts_with(b"\xff\xfe") || text.starts_with(b"\xfe\xff")
}

/// Returns whether a text begins with `#if`, `#ifdef` or `#ifndef`, perhaps with white space beside
/// `#`.
fn begins_section(text: &[u8]) -> bool
    ensures { result ≡ begins_section text.now }
{
    match skip_white(text).strip_prefix(b"#".as_slice()) {
        Some(rest) => skip_white(rest).starts_with(b"if"),
        None => false,
    }
}
