//! The precedence of operators, and which of them are prefix operators (C11 6.5).

ghost use Rattle.std.specs.Prelude.{◌≡◌, ◌≤◌};
ghost use Rattle.ud_model.specs.conditions.Expressions as trees;

use ud_model::Operator;

/// Returns the precedence of a binary operator, 1 being the loosest; 0 if `operator` isn't binary.
pub(crate) fn precedence(operator: Operator) -> u8
    ensures value { result ≡ trees.precedence operator }
    ensures bound { result ≤ 9 }
{
    match operator {
        Operator::Or => 1,
        Operator::And => 2,
        Operator::BitOr => 3,
        Operator::BitXor => 4,
        Operator::BitAnd => 5,
        Operator::Equal | Operator::NotEqual => 6,
        Operator::Less | Operator::LessEqual | Operator::Greater | Operator::GreaterEqual => 7,
        Operator::Plus | Operator::Minus => 8,
        Operator::Times | Operator::Over | Operator::Remainder => 9,
        Operator::Not | Operator::Complement => 0,
    }
}

/// Returns whether an operator can be a prefix operator.
pub(crate) fn is_prefix(operator: Operator) -> bool
    ensures { result ≡ trees.is_prefix operator }
{
    matches!(
        operator,
        Operator::Not | Operator::Complement | Operator::Minus
    )
}
