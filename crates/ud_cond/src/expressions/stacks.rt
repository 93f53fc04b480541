//! Two stacks of fixed size for what is pending in an expression: operators, and left operands.
//!
//! Each pending parenthesis or prefix operator takes up a byte of the text, and each left operand
//! with its operator takes two. So as many operators as the text has bytes suffice, and half as
//! many operands. A stack is cleared as a whole, which is costly for the longest line, so a short
//! text gets short ones.
//!
//! Rejected: recursion, which needs much of the program's stack for a long line; and an array of
//! operands too, since an array of the parts that `-p` keeps is copied as it is made, twice.

ghost use Rattle.std.specs.Prelude.{◌≡◌, ◌≤◌, ◌+◌, ◌∷◌, [], IfSome, IfNone, IsTrue, false};
ghost use Rattle.ud_model.specs.conditions.Parsing.{left, before, paren};
ghost use Rattle.ud_cond.specs.expressions.Stacks as spec;
ghost use Rattle.ud_cond.specs.expressions.Stacks.{weight};

use crate::expressions::operators::precedence;
use arrayvec::ArrayVec;
use std::marker::Model;
use ud_model::{MAX_LINE_BYTES, Operator};

/// The most operands that are pending in a line.
pub(crate) const LINE_OPERANDS: usize = MAX_LINE_BYTES / 2;

/// An entry of the operator stack.
#[derive(Clone, Copy)]
pub(crate) enum PendingOp {
    /// An open parenthesis.
    Opening,
    /// An operator whose left operand is pending on the other stack.
    Binary(Operator),
    /// An operator before its one operand.
    Prefix(Operator),
}

/// The stacks for a text of at most `BYTES` bytes, with operands of one type.
#[derive(Drop)]
pub(crate) struct Stacks<T, const BYTES: usize, const OPERANDS: usize> {
    /// The pending operators and parentheses from the outermost one on, and unused entries.
    operators: [PendingOp; BYTES],
    /// The number of pending operators and parentheses.
    depth: usize,
    /// The left operands of those operators that have one.
    operands: ArrayVec<T, OPERANDS>,
}

impl<T, const BYTES: usize, const OPERANDS: usize> Model for Stacks<T, BYTES, OPERANDS> {
    ghost use Rattle.std.specs.Prelude.{◌≤◌, List, reverse, take};
    ghost use Rattle.ud_model.specs.conditions.Parsing.{Frame};
    ghost use Rattle.ud_cond.specs.expressions.Stacks.{frames, AreMatched, Suffice};

    ghost Value = { List (Frame T) };

    ghost view = { λ s. frames (reverse (take s.depth s.operators)) (reverse s.operands.items) };

    ghost invariant = { λ s. AreMatched (reverse (take s.depth s.operators))
        (reverse s.operands.items) × (s.depth ≤ BYTES) × Suffice BYTES OPERANDS };
}

#[tactic(auto, using(crate::proofs::lemmas::expressions::StackLemmas::stack_steps))]
impl<T: Default + Drop, const BYTES: usize, const OPERANDS: usize> Stacks<T, BYTES, OPERANDS> {
    /// Returns empty stacks.
    pub(crate) fn new() -> Self
        requires { spec.Suffice BYTES OPERANDS }
        ensures { result ≡ [] }
    {
        Stacks {
            operators: [PendingOp::Opening; BYTES],
            depth: 0,
            operands: ArrayVec::new(),
        }
    }

    /// Returns whether nothing is pending.
    pub(crate) fn is_empty(&self) -> bool
        ensures { result ≡ spec.is_empty self.now }
    {
        self.operators[..self.depth].is_empty()
    }

    /// Pushes a binary operator with its left operand.
    pub(crate) fn push_binary(&mut self, operator: Operator, operand: T)
        requires { weight self.old + 2 ≤ BYTES }
        ensures { self.new ≡ left operator operand ∷ self.old }
    {
        self.operators[self.depth] = PendingOp::Binary(operator);
        self.depth += 1;
        self.operands.push(operand);
    }

    /// Pushes a prefix operator.
    pub(crate) fn push_prefix(&mut self, operator: Operator)
        requires { weight self.old + 1 ≤ BYTES }
        ensures { self.new ≡ before operator ∷ self.old }
    {
        self.operators[self.depth] = PendingOp::Prefix(operator);
        self.depth += 1;
    }

    /// Pushes an open parenthesis.
    pub(crate) fn push_paren(&mut self)
        requires { weight self.old + 1 ≤ BYTES }
        ensures { self.new ≡ paren ∷ self.old }
    {
        self.operators[self.depth] = PendingOp::Opening;
        self.depth += 1;
    }

    /// Pops the innermost parenthesis, if nothing is pending inside. Returns whether it was popped.
    pub(crate) fn pop_paren(&mut self) -> bool
        ensures yes { IsTrue result → self.old ≡ paren ∷ self.new }
        ensures no { result ≡ false → spec.IsNoParen self.old }
    {
        match self.operators[..self.depth].last() {
            Some(PendingOp::Opening) => {
                self.depth -= 1;
                true
            }
            _ => false,
        }
    }

    /// Pops the innermost operator if it binds at least as tightly as `least`, with its left
    /// operand if it has one.
    pub(crate) fn pop_operator(&mut self, least: u8) -> Option<(Operator, Option<T>)>
        ensures none { IfNone result (self.new ≡ self.old × spec.IsSettled least self.old) }
        ensures some { IfSome result (λ t. self.old ≡ spec.popped t.0 t.1 ∷ self.new ×
            spec.BindsAsTightly least t.0 t.1) }
    {
        match self.operators[..self.depth].last() {
            Some(PendingOp::Binary(operator)) => {
                if precedence(*operator) < least {
                    return None;
                }
                self.depth -= 1;
                let operand = self.operands.pop().unwrap();
                Some((*operator, Some(operand)))
            }
            Some(PendingOp::Prefix(operator)) => {
                self.depth -= 1;
                Some((*operator, None))
            }
            Some(PendingOp::Opening) | None => None,
        }
    }
}
