//! A case: arguments and a text.

use crate::args::args_of;
use crate::random::Random;
use crate::sections::write_text;
use crate::writer::Writer;
use std::alloc::{AllocError, Global};

/// The arguments, the text, and the seed of the chunks in which the tool reads it.
#[derive(Drop)]
pub struct Case {
    pub args: Vec<String>,
    pub text: Vec<u8>,
    pub seed: u64,
}

/// Returns the case of a seed.
///
/// # Errors
/// Fails if memory runs out.
pub fn case_of(alloc: Global, seed: u64) -> Result<Case, AllocError> {
    let mut random = Random::new(seed);
    let args = args_of(alloc, &mut random)?;
    let mut writer = Writer::new(alloc, random);
    write_text(&mut writer)?;
    Ok(Case {
        args,
        text: writer.text,
        seed,
    })
}
