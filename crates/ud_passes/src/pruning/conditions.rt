//! The rest of a condition.
//!
//! `residual` gives a flag for each token, and the flags decide what is copied. The copy replaces
//! the text if it has exactly the tokens that are left, and is still unknown.

ghost use Rattle.std.specs.Prelude.{◌≡◌, ◌≤◌, List, [], length, map, true, false, Some, IfOk};
ghost use Rattle.std.specs.Prelude.{IsTrue};
ghost use Rattle.ud_model.specs.text.Lexemes.{Cell, shown};
ghost use Rattle.ud_model.specs.conditions.Table.{Argument};
ghost use Rattle.ud_model.specs.conditions.Expressions.{Expression};
ghost use Rattle.ud_model.specs.conditions.Conditions.{expression_cond, Rules as SpecRules};
ghost use Rattle.ud_model.specs.aids.Residuals as residuals;
ghost use Rattle.ud_simplified.specs.ResidualTexts as spec;
ghost use Rattle.ud_model.specs.conditions.Parsing.{expression_of};
ghost use Rattle.ud_model.specs.declared.limits.TheConstants.{MAX_LINE_BYTES};
ghost use Rattle.ud_cond.specs.symbols.SymbolTable.{TableRepresents};
ghost use Rattle.ud_cond.specs.CondViews.{as_rules};
ghost use Rattle.ud_passes.specs.pruning.Cells.{AreKept, IsUnknownResidual, FindsLeft, stands};

use crate::pruning::cells::{CellBytes, LeftText};
use crate::pruning::left_texts::append_left;
use crate::pruning::tokens::has_tokens;
use std::alloc::{AllocError, Global};
use ud_cond::{Rules, Symbols, TokenFlags, condition, residual};
use ud_model::bytes::is_word_byte;
use ud_model::{Cond, Kind, MAX_LINE_BYTES};

/// The rest of a condition, and the flags of its tokens.
#[derive(Drop)]
pub(crate) struct LeftCondition {
    flags: TokenFlags,
    /// The text that is left.
    pub(crate) text: LeftText,
}

/// Returns whether a text begins with a word byte.
fn begins_word(text: &[u8]) -> bool
    ensures { (cells : List Cell) → map shown cells ≡ text.now →
        result ≡ spec.begins_word cells }
{
    match text.first() {
        Some(byte) => is_word_byte(*byte),
        None => false,
    }
}

/// Returns whether the text of an `#if` or `#elif` is unknown.
fn is_unknown(text: &[u8], symbols: &Symbols, rules: Rules) -> bool
    requires fits { length text.now ≤ MAX_LINE_BYTES }
    ensures { (calls : List Argument) → TableRepresents symbols.now calls →
        result ≡ residuals.is_unknown (expression_cond text.now calls (as_rules rules)) }
{
    condition(Kind::If, text, symbols, rules).cond == Cond::Unknown
}

/// Returns whether the rest of a text is read as the tokens with a true flag.
fn is_read(text: &[u8], flags: &[bool], left: &[u8]) -> bool
    ensures { (table : List Argument) (rules : SpecRules) (e : Expression) (cells : List Cell) →
        AreKept table rules e text.now flags.now → map shown cells ≡ left.now →
        result ≡ spec.is_read table rules e cells }
{
    !begins_word(left) && has_tokens(text, flags, left)
}

/// Returns whether the rest of a text has the tokens with a true flag, and is unknown.
fn may_stand(text: &[u8], flags: &[bool], left: &[u8], symbols: &Symbols, rules: Rules) -> bool
    requires fits { length left.now ≤ MAX_LINE_BYTES }
    ensures { (calls : List Argument) (e : Expression) (cells : List Cell) →
        TableRepresents symbols.now calls → AreKept calls (as_rules rules) e text.now flags.now →
        map shown cells ≡ left.now → result ≡ stands calls (as_rules rules) e cells }
{
    is_read(text, flags, left) && is_unknown(left, symbols, rules)
}

impl LeftCondition {
    /// Returns an empty rest.
    pub(crate) fn new(alloc: Global) -> LeftCondition
        ensures bytes { result.text.bytes.items ≡ [] }
        ensures shown { result.text.shown.items ≡ [] }
    {
        LeftCondition {
            flags: TokenFlags::new(),
            text: LeftText::new(alloc),
        }
    }

    /// Finds the residual of a text. Returns whether it is unknown.
    fn find_residual(&mut self, shown: &[u8], symbols: &Symbols, rules: Rules) -> bool
        requires fits { length shown.now ≤ MAX_LINE_BYTES }
        ensures yes { IsTrue result → (calls : List Argument) → TableRepresents symbols.now calls →
            IsUnknownResidual calls (as_rules rules) shown.now self.new.flags }
        ensures no { result ≡ false → (calls : List Argument) → TableRepresents symbols.now calls →
            (e : Expression) → expression_of shown.now ≡ Some e →
            residuals.is_unknown (residuals.residual calls (as_rules rules) e).cond ≡ false }
    {
        match residual(shown, symbols, rules, &mut self.flags) {
            Some(cond) => cond == Cond::Unknown,
            None => false,
        }
    }

    /// Finds the rest of the text of an `#if` or `#elif` without a quote. Returns whether it may
    /// replace the text.
    ///
    /// # Errors
    /// Fails if memory runs out.
    pub(crate) fn find(
        &mut self,
        text: CellBytes<'_>,
        symbols: &Symbols,
        rules: Rules,
    ) -> Result<bool, AllocError>
        requires fits { length text.shown.now ≤ MAX_LINE_BYTES }
        ensures fewer { IfOk result (λ found. found ≡ true →
            length self.new.text.bytes.items ≤ length text.entry.bytes.now) }
        ensures found { IfOk result (λ found. (calls : List Argument) →
            TableRepresents symbols.now calls →
            FindsLeft calls (as_rules rules) text.entry found self.new.text) }
    {
        if !is_unknown(text.shown, symbols, rules) {
            return Ok(false);
        }
        if !self.find_residual(text.shown, symbols, rules) {
            return Ok(false);
        }
        self.text.clear();
        append_left(text, self.flags.as_slice(), &mut self.text)?;
        let left = self.text.shown.as_slice();
        let flags = self.flags.as_slice();
        Ok(may_stand(text.shown, flags, left, symbols, rules))
    }
}
