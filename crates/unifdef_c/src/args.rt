//! The arguments of a call from C, in one block of bytes.

ghost use Rattle.std.specs.Prelude.{◌≡◌, ◌∷◌, ◌<◌, length, map, string_bytes, IfOk, IfErr};
ghost use Rattle.std.specs.Prelude.{◌==◌, position};
ghost use Rattle.unifdef_c.specs.Words.{words_of, AreUtf8};
ghost use Rattle.std.specs.Str.{IsUtf8};
ghost use Rattle.ud_args.specs.Plans.{IsPlanOf};
ghost use Rattle.unifdef_c.specs.CallFaults.{IsWordsFault, IsCallFault};

use crate::fault::CallFault;
use std::alloc::Global;
use ud_args::{Plan, plan};

/// Returns the plan of the arguments in a block of words.
///
/// # Errors
/// `BadWords` if the words have a fault or one of them isn't UTF-8, `OutOfMemory` if memory can't
/// be allocated.
pub(crate) fn plan_words(alloc: Global, words: &[u8]) -> Result<Plan, CallFault>
    ensures ok { IfOk result (IsPlanOf (words_of words.now)) }
    ensures utf8 { IfOk result (λ _. AreUtf8 (words_of words.now)) }
    ensures err { IfErr result (IsCallFault words.now) }
{
    let args = parse_words(alloc, words)?;
    Ok(plan(alloc, args.as_slice())?)
}

/// Returns the arguments in a block of words.
///
/// # Errors
/// `BadWords` if a word isn't UTF-8, `OutOfMemory` if memory for an earlier word can't be
/// allocated.
pub(crate) fn parse_words(alloc: Global, words: &[u8]) -> Result<Vec<String>, CallFault>
    ensures ok { IfOk result (λ args. map string_bytes args.items ≡ words_of words.now) }
    ensures utf8 { IfOk result (λ args. AreUtf8 (words_of words.now)) }
    ensures err { IfErr result (IsWordsFault words.now) }
{
    let mut args = Vec::new(alloc);
    let mut rest = words;
    'words: while !rest.is_empty() {
        let (word, after) = split_word(rest);
        args.push(parse_word(alloc, word)?)?;
        rest = after;
    }
    Ok(args)
}

/// Returns a word as an argument.
///
/// # Errors
/// As `parse_words`.
fn parse_word(alloc: Global, word: &[u8]) -> Result<String, CallFault>
    ensures ok { IfOk result (λ arg. string_bytes arg ≡ word.now) }
    ensures utf8 { IfOk result (λ arg. IsUtf8 word.now) }
    ensures err { IfErr result (λ fault. fault ≡ CallFault.BadWords → ¬ (IsUtf8 word.now)) }
{
    match str::from_utf8(word) {
        Ok(text) => Ok(String::from_str(alloc, text)?),
        Err(_) => Err(CallFault::BadWords),
    }
}

/// Returns the first word of a block, and the block of the others.
fn split_word(block: &[u8]) -> (&[u8], &[u8])
    requires some { 0 < length block.now }
    ensures words { words_of block.now ≡ result.0.now ∷ words_of result.1.now }
    ensures shorter { length result.1.now < length block.now }
{
    match first_zero(block) {
        Some(end) => (&block[..end], &block[end + 1..]),
        None => (block, &[]),
    }
}

/// Returns the index of the first zero byte.
fn first_zero(block: &[u8]) -> Option<usize>
    ensures { result ≡ position (λ b. b == 0) block.now }
{
    block.iter().position(|b| *b == 0)
}
