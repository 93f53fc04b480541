//! Values packed for the stacks of a long expression, which saves a third of their memory.

ghost use Rattle.std.specs.Prelude.{◌≡◌};

use crate::expressions::values::Value;
use std::marker::Model;
use ud_model::Amount;

/// How a number bounds a value. The variants have the order of `Amount`, so packing copies a byte.
#[derive(Clone, Copy)]
enum Bound {
    /// The value may be any number.
    Unbounded,
    /// The value is the number.
    Exact,
    /// The value is the number or a greater one.
    Lower,
}

/// A left operand that takes no more memory than its number and facts.
#[derive(Drop)]
pub(crate) struct PackedValue {
    /// The number or the least one, if it is known.
    number: i64,
    /// How the number bounds the value.
    bound: Bound,
    /// `true` if a constant in the operand, or one that a symbol in it resolves to, has a `u`.
    has_u: bool,
    /// `true` if the operand names a symbol of the table.
    is_listed: bool,
    /// `true` if the operand has an undefined symbol with arguments.
    calls_undefined: bool,
}

/// Nothing is known, all zeros.
impl Default for PackedValue {
    fn default() -> Self {
        PackedValue {
            number: 0,
            bound: Bound::Unbounded,
            has_u: false,
            is_listed: false,
            calls_undefined: false,
        }
    }
}

impl Model for PackedValue {
    ghost use Rattle.ud_cond.specs.declared.expressions.values.Value as declared;
    ghost use Rattle.ud_cond.specs.expressions.PackedAmounts.{amount_of};

    ghost Value = { declared.Value };

    ghost view = { λ o. record {
      number = amount_of o.bound o.number;
      unsigned = o.has_u;
      listed = o.is_listed;
      calls_undefined = o.calls_undefined;
    } };
}

impl PackedValue {
    /// Packs a value.
    pub(crate) fn of(value: Value) -> PackedValue
        ensures { result ≡ value }
    {
        let (bound, number) = match value.number {
            Amount::Anything => (Bound::Unbounded, 0),
            Amount::Exactly(number) => (Bound::Exact, number),
            Amount::AtLeast(least) => (Bound::Lower, least),
        };
        PackedValue {
            number,
            bound,
            has_u: value.unsigned,
            is_listed: value.listed,
            calls_undefined: value.calls_undefined,
        }
    }

    /// Returns the packed value.
    pub(crate) fn value(&self) -> Value
        ensures { result ≡ self.now }
    {
        Value {
            number: match self.bound {
                Bound::Unbounded => Amount::Anything,
                Bound::Exact => Amount::Exactly(self.number),
                Bound::Lower => Amount::AtLeast(self.number),
            },
            unsigned: self.has_u,
            listed: self.is_listed,
            calls_undefined: self.calls_undefined,
        }
    }
}
