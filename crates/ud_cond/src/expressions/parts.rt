//! The parts of an expression, kept for its residual.

ghost use Rattle.std.specs.Prelude.{◌≡◌, []};
ghost use Rattle.ud_cond.specs.CondViews.{as_rules};
ghost use Rattle.ud_cond.specs.expressions.ResidualReading.{part_of, leaf};

use crate::conditions::{Rules, cond_of_value};
use crate::expressions::values::{NO_VALUE, Value};
use ud_model::{Amount, Cond};

/// A part of an expression. The flags of its tokens are adjacent.
#[derive(Clone, Copy)]
pub(crate) struct Part {
    /// The value with signed numbers.
    pub(crate) value: Value,
    /// The number in an expression with a `u`.
    pub(crate) number: Amount,
    /// The condition of the residual.
    pub(crate) cond: Cond,
    /// `true` if the last operator of the part was removed.
    pub(crate) lost: bool,
    /// `true` if the residual needs no parentheses.
    pub(crate) left_alone: bool,
    /// `true` if the part needs no parentheses.
    pub(crate) alone: bool,
    /// `true` if the residual has each token of the part.
    pub(crate) whole: bool,
    /// The index of the first flag.
    pub(crate) first: usize,
    /// The index of the first flag of a token that the residual has; the end, if it has none.
    pub(crate) kept: usize,
}

/// A part without a meaning, all zeros, so that stacks of parts are cleared in place and not
/// copied.
impl Default for Part {
    fn default() -> Self {
        Part {
            value: NO_VALUE,
            number: Amount::Anything,
            cond: Cond::Yes,
            lost: false,
            left_alone: false,
            alone: false,
            whole: false,
            first: 0,
            kept: 0,
        }
    }
}

/// Returns an operand of its own.
pub(crate) fn leaf_part(
    rules: Rules,
    value: Value,
    number: Amount,
    alone: bool,
    first: usize,
) -> Part
    ensures { result ≡ part_of (leaf (as_rules rules) value number alone []) first }
{
    let own = if value.unsigned {
        Value { number, ..value }
    } else {
        value
    };
    Part {
        value,
        number,
        cond: cond_of_value(rules, own),
        lost: false,
        left_alone: alone,
        alone,
        whole: true,
        first,
        kept: first,
    }
}
