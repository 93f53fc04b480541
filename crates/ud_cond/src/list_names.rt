//! The names in the text of a directive.

ghost use Rattle.std.specs.Prelude.{◌≡◌, ◌≤◌, length, is_some, None};
ghost use Rattle.ud_model.specs.conditions.Parsing.{expression_of};
ghost use Rattle.ud_model.specs.conditions.Names.{names_of, names_in_tree, name_alone};
ghost use Rattle.ud_model.specs.conditions.Conditions.{sole_name};
ghost use Rattle.ud_model.specs.declared.limits.TheConstants.{MAX_LINE_BYTES};

use crate::conditions::sole_name;
use crate::expressions::evaluation::evaluate;
use crate::expressions::values::Scope;
use names_iter::Names;
use ud_model::{Kind, Test};

pub(crate) mod names_iter;

/// Returns whether a text is one expression.
fn is_expression(text: &[u8]) -> bool
    requires fits { length text.now ≤ MAX_LINE_BYTES }
    ensures { result ≡ is_some (expression_of text.now) }
{
    let scope = Scope {
        symbols: None,
        strict: false,
        unsigned: false,
    };
    evaluate(&scope, text).is_some()
}

/// Returns the names of an expression, in order and with repeats; none if `text` isn't one.
fn expression_names(text: &[u8]) -> Names<'_>
    requires fits { length text.now ≤ MAX_LINE_BYTES }
    ensures { result ≡ names_in_tree (expression_of text.now) }
{
    if is_expression(text) {
        Names::of_text(text)
    } else {
        Names::none()
    }
}

/// Returns the name that is the whole text, white space around it aside; else none.
#[inline(never)]
fn single_name(text: &[u8]) -> Names<'_>
    ensures { result ≡ name_alone (sole_name text.now) }
{
    match sole_name(text) {
        Some(name) => Names::one(name),
        None => Names::none(),
    }
}

/// Returns the names of a directive that no continuation cuts, in order and with repeats.
///
/// An `#if` or `#elif` has the names of its operands and of each `defined`, but none inside
/// arguments. An `#ifdef`, `#ifndef`, `#elifdef` or `#elifndef` has its one name. Text that isn't
/// understood has no names, nor do `#else` and `#endif`.
///
/// `text` is what follows the keyword on its masked line, at most `MAX_LINE_BYTES`. Takes no
/// memory.
///
/// (unifdef(1), `-s` and `-S`)
///
/// # Examples
/// ```rust
/// let text = b" defined(A) && B > LIMIT(C)";
/// for name in names(Kind::If, text) {
///     println!(rt; "name: {}", name.escape_ascii())?;
/// }
/// ```
/// ```text
/// name: A
/// name: B
/// name: LIMIT
/// ```
pub fn names(kind: Kind, text: &[u8]) -> Names<'_>
    requires fits { length text.now ≤ MAX_LINE_BYTES }
    ensures { result ≡ names_of kind text.now }
{
    match kind.test() {
        Test::Nonzero => expression_names(text),
        Test::Defined | Test::Undefined => single_name(text),
        Test::Nothing => Names::none(),
    }
}
