//! What a reader of expressions keeps of each part.

ghost use Rattle.std.specs.Prelude.{◌≤◌, ◌<◌, ◌+◌, ◌++◌, ◌∷◌, [], List, Bool, true};
ghost use Rattle.ud_model.specs.conditions.Parsing.{Meaning};
ghost use Rattle.ud_model.specs.declared.limits.TheConstants.{MAX_LINE_BYTES};
ghost use Rattle.ud_cond.specs.expressions.Keepings as spec;
ghost use Rattle.ud_cond.specs.expressions.Keepings.{Keeping, count, Appends, KeepsUnary};
ghost use Rattle.ud_cond.specs.expressions.Keepings.{KeepsBinary};

use ud_model::Operator;

/// A meaning of the parts of an expression, in a form that a program keeps while it reads a text.
pub(crate) trait Keeper {
    /// A kept part.
    type Part: Default + Drop;
    /// Notes on the tokens so far.
    type Notes;

    ghost Meant: { Type 0 };

    ghost meaning: { Self → Meaning Self.Meant };

    ghost keeping: { Keeping Self.Meant Self.Part Self.Notes };

    /// Notes a token that is no operand: an operator, or an opening parenthesis.
    fn note(&self, notes: &mut Self::Notes)
        requires fits { count Self.keeping notes.old < MAX_LINE_BYTES }
        ensures noted { (front : List Bool) → spec.Noted Self.keeping notes.old front →
            spec.Noted Self.keeping notes.new (front ++ true ∷ []) }
        ensures long { count Self.keeping notes.new ≤ count Self.keeping notes.old + 1 };

    /// Returns the part of a constant.
    fn constant(&self, word: &[u8], notes: &mut Self::Notes) -> Self::Part
        requires fits { count Self.keeping notes.old < MAX_LINE_BYTES }
        ensures kept { Appends Self.keeping ((Self.meaning self.now).constant word.now)
            notes.old result notes.new }
        ensures long { count Self.keeping notes.new ≤ count Self.keeping notes.old + 1 };

    /// Returns the part of a name with or without arguments.
    fn named(&self, name: &[u8], arguments: bool, notes: &mut Self::Notes) -> Self::Part
        requires fits { count Self.keeping notes.old < MAX_LINE_BYTES }
        ensures kept { Appends Self.keeping ((Self.meaning self.now).named name.now arguments)
            notes.old result notes.new }
        ensures long { count Self.keeping notes.new ≤ count Self.keeping notes.old + 1 };

    /// Returns the part of a `defined` and a name, which may be in parentheses.
    fn asked(&self, name: &[u8], enclosed: bool, notes: &mut Self::Notes) -> Self::Part
        requires fits { count Self.keeping notes.old + spec.tokens_asked enclosed ≤ MAX_LINE_BYTES }
        ensures kept { Appends Self.keeping ((Self.meaning self.now).is_defined name.now enclosed)
            notes.old result notes.new }
        ensures long { count Self.keeping notes.new ≤
            count Self.keeping notes.old + spec.tokens_asked enclosed };

    /// Returns the part of a prefix operator and the last operand.
    fn unary(&self, operator: Operator, operand: Self::Part, notes: &mut Self::Notes) -> Self::Part
        ensures kept { KeepsUnary Self.keeping ((Self.meaning self.now).unary operator) operand
            notes.old result notes.new }
        ensures long { count Self.keeping notes.new ≤ count Self.keeping notes.old };

    /// Returns the part of an operator and the last two operands.
    fn binary(
        &self,
        operator: Operator,
        first: Self::Part,
        second: Self::Part,
        notes: &mut Self::Notes,
    ) -> Self::Part
        ensures kept { KeepsBinary Self.keeping ((Self.meaning self.now).binary operator) first
            second notes.old result notes.new }
        ensures long { count Self.keeping notes.new ≤ count Self.keeping notes.old };

    /// Returns the part of parentheses around the last operand. The `)` has just come.
    fn parens(&self, inside: Self::Part, notes: &mut Self::Notes) -> Self::Part
        requires fits { count Self.keeping notes.old < MAX_LINE_BYTES }
        ensures kept { KeepsUnary Self.keeping (Self.meaning self.now).parens inside
            notes.old result notes.new }
        ensures long { count Self.keeping notes.new ≤ count Self.keeping notes.old + 1 };
}
