//! Arguments split into words, and long texts.

use std::alloc::{AllocError, Global};

/// Returns the text repeated `count` times.
///
/// # Errors
/// Fails if memory runs out.
pub fn repeated(alloc: Global, text: &[u8], count: usize) -> Result<Vec<u8>, AllocError> {
    let mut whole = Vec::new(alloc);
    for _ in 0..count {
        whole.extend_from_slice(text)?;
    }
    Ok(whole)
}

/// Returns a text that opens `depth` sections, and closes them.
///
/// # Errors
/// Fails if memory runs out.
pub fn nested(alloc: Global, depth: usize) -> Result<Vec<u8>, AllocError> {
    let mut whole = repeated(alloc, b"#ifdef X\n", depth)?;
    whole.extend_from_slice(repeated(alloc, b"#endif\n", depth)?.as_slice())?;
    Ok(whole)
}

/// Splits arguments at spaces.
///
/// # Errors
/// Fails if memory runs out.
pub fn parted(alloc: Global, args: &str) -> Result<Vec<String>, AllocError> {
    let mut owned = Vec::new(alloc);
    for word in args.split_whitespace() {
        owned.push(String::from_str(alloc, word)?)?;
    }
    Ok(owned)
}
