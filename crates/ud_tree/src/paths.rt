//! Paths: their last names, and names for new files.

ghost use Rattle.std.specs.Prelude.{◌≡◌, ◌≤◌, ◌++◌, drop, length, take, IfOk, OnOk, string_bytes};
ghost use Rattle.ud_tree.specs.Choices.{is_fresh};
ghost use Rattle.ud_tree.specs.Paths.{escaped, escaped_byte, directory_len, fresh_end, fresh_name};
ghost use Rattle.ud_tree.specs.Paths.{last_name};
ghost use Rattle.ud_tree.specs.Scopes.{IsDirectoryPath};

use crate::send::hex_digit;
use std::alloc::{AllocError, Global};

/// The beginning of the name of each new file.
pub(crate) const FRESH: &[u8] = b".unifdef-tree.";

/// The most bytes of a name that fits after `FRESH` in a name of at most 255 bytes.
const LONGEST_END: usize = 240;

/// Returns the number of bytes of a path up to and including its last slash; 0 if there is none.
#[tactic(auto, using(crate::proofs::PathLemmas::directory_bytes))]
fn directory_len(path: &[u8]) -> usize
    ensures value { result ≡ directory_len path.now }
    ensures within { result ≤ length path.now }
{
    let mut len = 0;
    for (i, byte) in path.iter().enumerate() {
        if *byte == b'/' {
            len = i + 1;
        }
    }
    len
}

/// Returns what follows the last slash of a path, or the path if there is none.
pub(crate) fn last_name(path: &[u8]) -> &[u8]
    ensures { result.now ≡ last_name path.now }
{
    &path[directory_len(path)..]
}

/// Returns whether a name is one that `fresh_name` gives.
pub(crate) fn is_fresh(name: &[u8]) -> bool
    ensures { result ≡ is_fresh name.now }
{
    name.starts_with(FRESH)
}

/// Returns the end of the name of a new file in the same directory: the last name of a path, or
/// `long` if that is too long for a name after `FRESH`.
pub(crate) fn fresh_end(path: &[u8]) -> &[u8]
    ensures { result.now ≡ fresh_end path.now }
{
    let name = last_name(path);
    if name.len() > LONGEST_END {
        b"long"
    } else {
        name
    }
}

/// Returns a path's directory, with its slash; nothing if it has none.
pub(crate) fn directory(path: &[u8]) -> &[u8]
    ensures { result.now ≡ take (directory_len path.now) path.now }
{
    &path[..directory_len(path)]
}

/// Returns what follows the first `len` bytes of a path.
pub(crate) fn below(path: &[u8], len: usize) -> &[u8]
    ensures { result.now ≡ drop len path.now }
{
    if len > path.len() {
        return b"";
    }
    &path[len..]
}

/// Returns the path of a directory with a slash at its end.
///
/// # Errors
/// Fails if memory runs out.
pub(crate) fn directory_path(alloc: Global, path: &str) -> Result<String, AllocError>
    ensures { IfOk result (λ directory. IsDirectoryPath path.now (string_bytes directory)) }
{
    let mut directory = String::from_str(alloc, path)?;
    if path.as_bytes().ends_with(b"/") {
        return Ok(directory);
    }
    directory.push('/')?;
    Ok(directory)
}

/// Returns the name of a new file in the same directory. It is always the same, so two runs can't
/// replace a file at once.
///
/// # Errors
/// Fails if memory runs out.
pub(crate) fn fresh_name(alloc: Global, path: &[u8]) -> Result<Vec<u8>, AllocError>
    ensures { IfOk result (λ v. v.items ≡ fresh_name path.now) }
{
    let mut fresh = Vec::new(alloc);
    fresh.extend_from_slice(directory(path))?;
    fresh.extend_from_slice(FRESH)?;
    fresh.extend_from_slice(fresh_end(path))?;
    Ok(fresh)
}

/// Appends a byte, or `\x` and two hexadecimal digits if it isn't printable ASCII or is a
/// backslash.
#[tactic(auto, unfolding(crate::specs::Paths::escaped_byte))]
fn push_escaped(out: &mut Vec<u8>, byte: u8) -> Result<(), AllocError>
    ensures { OnOk result (out.new.items ≡ out.old.items ++ escaped_byte byte) }
{
    if byte < b' ' || byte > b'~' || byte == b'\\' {
        let digits = [b'\\', b'x', hex_digit(byte / 16), hex_digit(byte % 16)];
        out.extend_from_slice(&digits)?;
        return Ok(());
    }
    out.push(byte)?;
    Ok(())
}

/// Returns a name with each byte that isn't printable ASCII, and each backslash, as `\x` and two
/// hexadecimal digits.
///
/// # Errors
/// Fails if memory runs out.
#[tactic(auto, unfolding(crate::specs::Paths::escaped))]
pub(crate) fn escaped(alloc: Global, name: &[u8]) -> Result<Vec<u8>, AllocError>
    ensures { IfOk result (λ shown. shown.items ≡ escaped name.now) }
{
    let mut out = Vec::new(alloc);
    for byte in name {
        push_escaped(&mut out, *byte)?;
    }
    Ok(out)
}
