//! The evaluation of any expression, by a reader that keeps the value of each part.
//!
//! Rejected: a fast path without stacks for two pending operators, which saves about a hundredth of
//! the instructions on real text.

ghost use Rattle.std.specs.Prelude.{◌≡◌, ◌≤◌, [], length};
ghost use Rattle.ud_model.specs.conditions.Parsing as spec;
ghost use Rattle.ud_model.specs.declared.limits.TheConstants.{MAX_LINE_BYTES};
ghost use Rattle.ud_cond.specs.expressions.Stacks.{Suffice};
ghost use Rattle.ud_cond.specs.expressions.Evaluation.{value_meaning_in};

use crate::expressions::keeper::Keeper;
use crate::expressions::packed_value::PackedValue;
use crate::expressions::reader::read;
use crate::expressions::stacks::{LINE_OPERANDS, Stacks};
use crate::expressions::values::{Scope, Value, binary, constant, defined, name_value, unary};
use ud_model::{MAX_LINE_BYTES, Operator};

impl Keeper for Scope<'_> {
    ghost use Rattle.ud_cond.specs.declared.expressions.values.Value.{Value};
    ghost use Rattle.ud_cond.specs.expressions.Evaluation.{value_meaning_in, value_keeping};

    type Part = PackedValue;

    type Notes = ();

    ghost Meant = { Value };

    ghost meaning = { value_meaning_in };

    ghost keeping = { value_keeping };

    fn note(&self, _notes: &mut ()) {}

    fn constant(&self, word: &[u8], _notes: &mut ()) -> PackedValue {
        PackedValue::of(constant(word))
    }

    fn named(&self, name: &[u8], arguments: bool, _notes: &mut ()) -> PackedValue {
        PackedValue::of(name_value(self, name, arguments))
    }

    fn asked(&self, name: &[u8], _enclosed: bool, _notes: &mut ()) -> PackedValue {
        PackedValue::of(defined(self, name))
    }

    fn unary(&self, operator: Operator, operand: PackedValue, _notes: &mut ()) -> PackedValue {
        PackedValue::of(unary(self, operator, operand.value()))
    }

    #[inline(always)]
    fn binary(
        &self,
        operator: Operator,
        first: PackedValue,
        second: PackedValue,
        _notes: &mut (),
    ) -> PackedValue {
        PackedValue::of(binary(self, operator, first.value(), second.value()))
    }

    fn parens(&self, inside: PackedValue, _notes: &mut ()) -> PackedValue {
        inside
    }
}

/// Evaluates a text of at most `BYTES` bytes. Returns `None` if the text isn't one expression.
#[inline(never)]
fn evaluate_with_stacks<const BYTES: usize, const OPERANDS: usize>(
    scope: &Scope<'_>,
    text: &[u8],
) -> Option<Value>
    requires fits { length text.now ≤ BYTES }
    requires stacks { Suffice BYTES OPERANDS }
    ensures { result ≡ spec.reads (value_meaning_in scope.now) (spec.needs []) text.now }
{
    let mut stacks = Stacks::<PackedValue, BYTES, OPERANDS>::new();
    let value = read(scope, &mut stacks, &mut (), text)?;
    Some(value.value())
}

/// Evaluates a text. Returns `None` if the text isn't one expression.
#[inline(never)]
pub(crate) fn evaluate(scope: &Scope<'_>, text: &[u8]) -> Option<Value>
    requires fits { length text.now ≤ MAX_LINE_BYTES }
    ensures { result ≡ spec.reads (value_meaning_in scope.now) (spec.needs []) text.now }
{
    match text.len() {
        0..=32 => evaluate_with_stacks::<32, 16>(scope, text),
        0..=128 => evaluate_with_stacks::<128, 64>(scope, text),
        0..=1024 => evaluate_with_stacks::<1024, 512>(scope, text),
        0..=8192 => evaluate_with_stacks::<8192, 4096>(scope, text),
        _ => evaluate_with_stacks::<MAX_LINE_BYTES, LINE_OPERANDS>(scope, text),
    }
}
