//! The option `-D` with the least value of a symbol (unifdef-tree(1)).
//!
//! In terms of unifdef(1), the value of such a symbol is a byte 255 and the number. No argument
//! has this byte, since arguments are UTF-8. `specs/LeastSymbols.antt` defines the option.

ghost use Rattle.std.specs.Prelude.{◌≡◌, ◌∷◌, IfOk, IfSome, IfNone, false};
ghost use Rattle.ud_args.specs.LeastSymbols.{IsLeastOf, is_least, is_other_relation, has_relation};

use std::alloc::{AllocError, Global};
use ud_cond::is_number;
use ud_model::bytes::{is_name, word_len};

/// A symbol and its least value.
#[derive(Clone, Copy)]
pub(crate) struct LeastSymbol<'a> {
    /// An identifier other than `defined`.
    pub name: &'a [u8],
    /// The least value: a constant, or a `-` and a constant.
    pub number: &'a [u8],
}

/// Returns the symbol of an option that gives the least value of one.
pub(crate) fn least_symbol(letter: char, argument: &[u8]) -> Option<LeastSymbol<'_>>
    ensures symbol { IfSome result (IsLeastOf letter argument.now) }
    ensures none { IfNone result (is_least letter argument.now ≡ false) }
{
    if letter != 'D' {
        return None;
    }
    let length = word_len(argument);
    let name = &argument[..length];
    match &argument[length..] {
        [b'>', b'=', number @ ..] if is_name(name) && is_number(number) => {
            Some(LeastSymbol { name, number })
        }
        _ => None,
    }
}

/// Returns whether an option is `-D` with a relation that gives no least value.
pub(crate) fn is_other_relation(letter: char, argument: &[u8]) -> bool
    ensures { result ≡ is_other_relation letter argument.now }
{
    if letter != 'D' || least_symbol(letter, argument).is_some() {
        return false;
    }
    let length = word_len(argument);
    is_name(&argument[..length]) && has_relation(&argument[length..])
}

/// Returns whether the bytes begin with a relation.
fn has_relation(bytes: &[u8]) -> bool
    ensures { result ≡ has_relation bytes.now }
{
    matches!(bytes, [b'<' | b'>', ..] | [b'!' | b'=', b'=', ..])
}

/// Returns the value of a symbol that is at least `number`.
///
/// # Errors
/// Fails if memory runs out.
pub(crate) fn least_value(alloc: Global, number: &[u8]) -> Result<Vec<u8>, AllocError>
    ensures { IfOk result (λ value. value.items ≡ 255 ∷ number.now) }
{
    let mut value = Vec::from_slice(alloc, b"\xff")?;
    value.extend_from_slice(number)?;
    Ok(value)
}
