//! Prints the parts of a diff.

ghost use Rattle.std.specs.Prelude.{◌≡◌, ◌+◌, ◌<◌, ◌^◌, ◌++◌, OnOk, decimal};
ghost use Rattle.ud_passes.specs.diff.DiffTexts.{range_text, ranges_text, sign_byte, ended_text};
ghost use Rattle.ud_passes.specs.diff.DiffTexts.{signed_text, is_special, escaped, path_text};
ghost use Rattle.ud_passes.specs.diff.DiffTexts.{quoted_text, is_quoted, tab_after, is_dropped};
ghost use Rattle.ud_passes.specs.diff.DiffTexts.{after_dots, without_dots, name_text, names_text};
ghost use Rattle.std.specs.List.{flat_map, list_any};
ghost use Rattle.ud_passes.specs.diff.Scripts.{signed};

use crate::diff::line::{DiffLine, Sign};
use itoa::Buffer;
use std::alloc::AllocError;

/// Appends a number.
fn append_number(out: &mut Vec<u8>, number: usize) -> Result<(), AllocError>
    ensures { OnOk result (out.new.items ≡ out.old.items ++ decimal number) }
{
    let mut digits = Buffer::new();
    out.extend_from_slice(digits.format(number).as_bytes())
}

/// Appends where some lines begin, and their number. `before` lines come before them.
#[tactic(auto, unfolding(crate::specs::diff::DiffTexts::range_text))]
fn append_range(out: &mut Vec<u8>, before: usize, count: usize) -> Result<(), AllocError>
    requires { before + count < 2 ^ 64 }
    ensures { OnOk result (out.new.items ≡ out.old.items ++ range_text before count) }
{
    let start = if count == 0 { before } else { before + 1 };
    append_number(out, start)?;
    if count != 1 {
        out.push(b',')?;
        append_number(out, count)?;
    }
    Ok(())
}

/// Appends the first line of a hunk: where its lines of both texts begin, and their numbers.
#[tactic(auto, unfolding(crate::specs::diff::DiffTexts::ranges_text))]
pub(crate) fn append_ranges(
    out: &mut Vec<u8>,
    old_before: usize,
    old_count: usize,
    new_before: usize,
    new_count: usize,
) -> Result<(), AllocError>
    requires old { old_before + old_count < 2 ^ 64 }
    requires new { new_before + new_count < 2 ^ 64 }
    ensures { OnOk result (out.new.items ≡ out.old.items ++
        ranges_text old_before old_count new_before new_count) }
{
    out.extend_from_slice(b"@@ -")?;
    append_range(out, old_before, old_count)?;
    out.extend_from_slice(b" +")?;
    append_range(out, new_before, new_count)?;
    out.extend_from_slice(b" @@\n")
}

/// Returns the byte that shows a sign.
fn sign_byte(sign: Sign) -> u8
    ensures { result ≡ sign_byte sign }
{
    match sign {
        Sign::Kept => b' ',
        Sign::Removed => b'-',
        Sign::Added => b'+',
    }
}

/// Appends a line. If it has no newline, a line follows that says so.
#[tactic(auto, unfolding(crate::specs::diff::DiffTexts::ended_text))]
fn append_ended(out: &mut Vec<u8>, bytes: &[u8]) -> Result<(), AllocError>
    ensures { OnOk result (out.new.items ≡ out.old.items ++ ended_text bytes.now) }
{
    out.extend_from_slice(bytes)?;
    if !bytes.ends_with(b"\n") {
        out.extend_from_slice(b"\n\\ No newline at end of file\n")?;
    }
    Ok(())
}

/// Appends a line after its sign.
pub(crate) fn append_line(out: &mut Vec<u8>, line: &DiffLine<'_>) -> Result<(), AllocError>
    ensures { OnOk result (out.new.items ≡ out.old.items ++ signed_text (signed line.now)) }
{
    out.push(sign_byte(line.sign))?;
    append_ended(out, line.bytes)
}

/// Returns whether a byte before `rest` is a slash, or a dot before a slash.
fn is_dropped(byte: u8, rest: &[u8]) -> bool
    ensures { result ≡ is_dropped byte rest.now }
{
    byte == b'/' || (byte == b'.' && rest.starts_with(b"/"))
}

/// Returns a path without leading slashes, and the dots before them.
#[tactic(auto, unfolding(crate::specs::diff::DiffTexts::after_dots))]
fn after_dots(path: &[u8]) -> &[u8]
    ensures { result.now ≡ after_dots path.now }
{
    let mut rest = path;
    while let Some((first, after)) = rest.split_first() {
        if !is_dropped(*first, after) {
            return rest;
        }
        rest = after;
    }
    rest
}

/// Returns a path without each leading `./`, and the slashes after it.
fn without_dots(path: &[u8]) -> &[u8]
    ensures { result.now ≡ without_dots path.now }
{
    if path.starts_with(b"./") {
        after_dots(path)
    } else {
        path
    }
}

/// Returns whether a name with this byte is quoted.
fn is_special(byte: u8) -> bool
    ensures { result ≡ is_special byte }
{
    byte < b' ' || byte == b'"' || byte == b'\\' || byte == 127
}

/// Returns whether a name has a byte that needs quotes.
fn has_special(path: &[u8]) -> bool
    ensures { result ≡ list_any is_special path.now }
{
    path.iter().any(|byte| is_special(*byte))
}

/// Returns whether a name is quoted.
fn is_quoted(path: &[u8]) -> bool
    ensures { result ≡ is_quoted path.now }
{
    has_special(path) || path.starts_with(b" ") || path.ends_with(b" ")
}

/// Appends a byte of a quoted name.
#[tactic(auto, unfolding(crate::specs::diff::DiffTexts::escaped))]
fn append_escaped(out: &mut Vec<u8>, byte: u8) -> Result<(), AllocError>
    ensures { OnOk result (out.new.items ≡ out.old.items ++ escaped byte) }
{
    if is_special(byte) {
        out.extend_from_slice(&[
            b'\\',
            b'0' + byte / 64,
            b'0' + byte / 8 % 8,
            b'0' + byte % 8,
        ])?;
        return Ok(());
    }
    out.push(byte)?;
    Ok(())
}

/// Appends the bytes of a quoted name.
fn append_all_escaped(out: &mut Vec<u8>, path: &[u8]) -> Result<(), AllocError>
    ensures { OnOk result (out.new.items ≡ out.old.items ++ flat_map escaped path.now) }
{
    for byte in path {
        append_escaped(out, *byte)?;
    }
    Ok(())
}

/// Appends a name in quotes, as in C.
fn append_quoted(out: &mut Vec<u8>, path: &[u8]) -> Result<(), AllocError>
    ensures { OnOk result (out.new.items ≡ out.old.items ++ quoted_text path.now) }
{
    out.push(b'"')?;
    append_all_escaped(out, path)?;
    out.push(b'"')?;
    Ok(())
}

/// Appends a name as it is. `patch` accepts spaces in it if a tab follows.
fn append_plain(out: &mut Vec<u8>, path: &[u8]) -> Result<(), AllocError>
    ensures { OnOk result (out.new.items ≡ out.old.items ++ (path.now ++ tab_after path.now)) }
{
    out.extend_from_slice(path)?;
    if path.contains(&b' ') {
        out.push(b'\t')?;
    }
    Ok(())
}

/// Appends the name of a file, in quotes if it needs them.
#[tactic(auto, unfolding(crate::specs::diff::DiffTexts::path_text))]
fn append_path(out: &mut Vec<u8>, path: &[u8]) -> Result<(), AllocError>
    ensures { OnOk result (out.new.items ≡ out.old.items ++ path_text path.now) }
{
    if is_quoted(path) {
        append_quoted(out, path)
    } else {
        append_plain(out, path)
    }
}

/// Appends a line that names the file.
#[tactic(auto, unfolding(crate::specs::diff::DiffTexts::name_text))]
fn append_name(out: &mut Vec<u8>, sign: &[u8], path: &[u8]) -> Result<(), AllocError>
    ensures { OnOk result (out.new.items ≡ out.old.items ++ name_text sign.now path.now) }
{
    out.extend_from_slice(sign)?;
    append_path(out, path)?;
    out.push(b'\n')?;
    Ok(())
}

/// Appends the lines that name the old file and the new one.
pub(crate) fn append_names(out: &mut Vec<u8>, path: &[u8]) -> Result<(), AllocError>
    ensures { OnOk result (out.new.items ≡ out.old.items ++ names_text path.now) }
{
    let name = without_dots(path);
    append_name(out, b"--- ", name)?;
    append_name(out, b"+++ ", name)
}
