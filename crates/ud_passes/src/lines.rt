//! The lines of lists.

ghost use Rattle.std.specs.Prelude.{◌≡◌, ◌∷◌, [], ◌++◌, OnOk};
ghost use Rattle.ud_passes.specs.Passes.{AppendsSome, place_at, numbered_line};

use itoa::Buffer;
use std::alloc::AllocError;

/// Appends a file's name and a line's number, each with a colon, and a space.
///
/// # Errors
/// Fails if memory runs out.
pub(crate) fn append_place(list: &mut Vec<u8>, name: &[u8], number: usize) -> Result<(), AllocError>
    ensures grows { AppendsSome list.old.items list.new.items }
    ensures items { OnOk result (list.new.items ≡
        list.old.items ++ place_at name.now number) }
{
    let mut digits = Buffer::new();
    list.extend_from_slice(name)?;
    list.push(b':')?;
    list.extend_from_slice(digits.format(number).as_bytes())?;
    list.extend_from_slice(b": ")
}

/// Appends a line's body and a newline.
///
/// # Errors
/// Fails if memory runs out.
pub(crate) fn append_body(list: &mut Vec<u8>, body: &[u8]) -> Result<(), AllocError>
    ensures grows { AppendsSome list.old.items list.new.items }
    ensures items { OnOk result (list.new.items ≡ list.old.items ++ (body.now ++ 10 ∷ [])) }
{
    list.extend_from_slice(body)?;
    list.push(b'\n')?;
    Ok(())
}

/// Appends a line of a file with its number.
///
/// # Errors
/// Fails if memory runs out.
pub(crate) fn append_line(
    list: &mut Vec<u8>,
    name: &[u8],
    number: usize,
    body: &[u8],
) -> Result<(), AllocError>
    ensures grows { AppendsSome list.old.items list.new.items }
    ensures items { OnOk result
        (list.new.items ≡ list.old.items ++ numbered_line name.now number body.now) }
{
    append_place(list, name, number)?;
    append_body(list, body)
}
