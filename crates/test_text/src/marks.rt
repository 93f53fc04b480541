//! Marks: the first of them in bytes of any length.

ghost use Rattle.std.specs.Prelude.{◌≤◌};

use std::test::Fail;
use ud_text::first_mark;

/// The bytes at which a comment, a literal or a splice may begin or end.
const MARKS: [u8; 5] = [b'/', b'*', b'"', b'\'', b'\\'];

/// Passes if a mark is found at each position of `length` bytes, and if none is found where there
/// is none.
fn check_length(length: usize) -> Result<(), Fail>
    requires { length ≤ 300 }
{
    let mut bytes = [b'a'; 300];
    if first_mark(&bytes[..length]) != length {
        return Err(Fail::new("there is no mark"));
    }
    for mark in MARKS {
        for at in 0..length {
            bytes[at] = mark;
            if first_mark(&bytes[..length]) != at {
                return Err(Fail::new("the mark is found"));
            }
            bytes[at] = b'a';
        }
    }
    Ok(())
}

/// Passes if the first mark is found, where marks fill the bytes from each position on.
fn check_marks_to_the_end(length: usize) -> Result<(), Fail>
    requires { length ≤ 300 }
{
    for mark in MARKS {
        let mut bytes = [mark; 300];
        for at in 0..length {
            if first_mark(&bytes[..length]) != at {
                return Err(Fail::new("the first mark is found"));
            }
            bytes[at] = b'#';
        }
    }
    Ok(())
}

#[test]
fn each_mark_is_found_at_each_place_of_up_to_100_bytes() -> Result<(), Fail> {
    for length in 0..101 {
        check_length(length)?;
    }
    Ok(())
}

#[test]
fn the_first_of_many_marks_is_found_in_up_to_100_bytes() -> Result<(), Fail> {
    for length in 0..101 {
        check_marks_to_the_end(length)?;
    }
    Ok(())
}

#[test]
fn each_mark_is_found_at_each_place_of_longer_bytes() -> Result<(), Fail> {
    for length in [127, 128, 129, 255, 256, 257, 300] {
        check_length(length)?;
        check_marks_to_the_end(length)?;
    }
    Ok(())
}
