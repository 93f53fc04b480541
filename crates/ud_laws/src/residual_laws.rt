//! Laws of residuals: conditions and texts without the operands that the table decides.

ghost use Rattle.std.specs.Prelude.{◌≡◌, ◌↔◌, ℕ, List, ◌∷◌, ◌++◌, length, map, Bool, None};
ghost use Rattle.std.specs.Prelude.{true, false};
ghost use Rattle.ud_model.specs.aids.SpacedBytes.{spaced};
ghost use Rattle.ud_model.specs.text.Lines.{lines_of};
ghost use Rattle.ud_model.specs.text.Scans.{Reading};
ghost use Rattle.ud_model.specs.conditions.Table.{Argument};
ghost use Rattle.ud_model.specs.conditions.Expressions.{Expression};
ghost use Rattle.ud_model.specs.conditions.Conditions.{Rules};
ghost use Rattle.ud_model.specs.laws.CValues.{Number, IsZero};
ghost use Rattle.ud_model.specs.aids.Residuals.{residual};
ghost use Rattle.ud_simplified.specs.Sublists.{IsSublist};
ghost use Rattle.ud_laws.specs.conditions.Choices.{Choice, IsAllowed, HasValue, stay};
ghost use Rattle.ud_model.specs.sections.Directives.{Directive, directive, content_of, test_of};
ghost use Rattle.ud_model.specs.sections.Items.{Options};
ghost use Rattle.ud_model.specs.sections.Tree.{Nodes};
ghost use Rattle.ud_model.specs.laws.Rereading.{IsPlainC, LinesFit};
ghost use Rattle.ud_model.specs.aids.ReadAs.{read_as};
ghost use Rattle.ud_simplified.specs.SimplifiedTexts.{simplified_line, simplified_text};
ghost use Rattle.ud_simplified.specs.SimplifiedTexts.{simplified_under};
ghost use Rattle.ud_laws.specs.output.LeftOperands.{IsSimplified};
ghost use Rattle.ud_simplified.specs.FoldedTexts.{CLine};
ghost use Rattle.ud_laws.specs.output.Processing.{Processes, HasOneChoice};
ghost use Rattle.ud_laws.specs.output.LogicalProcessing.{over_logical_lines, IsCTree, IsRewritten};
ghost use Rattle.ud_laws.specs.output.LogicalProcessing.{RewrittenTree};
ghost use Rattle.ud_laws.specs.output.DecidedByNumbers.{MayDecide};
ghost use Rattle.ud_model.specs.answer.CommandLine.{options_of};
ghost use Rattle.ud_model.specs.answer.Answer.{Answer, IsAnswer};
ghost use Rattle.ud_model.specs.answer.Outcomes.{Outcome, HasOutcome};
ghost use Rattle.ud_laws.specs.answer.Successes.{Succeeds, copy_answer};
ghost use Rattle.ud_model.specs.declared.cond.Cond.{Cond};
ghost use Rattle.ud_model.specs.declared.kind.Mode.{Mode};
ghost use Rattle.ud_model.specs.declared.kind.Test.{Test};

use crate::output_laws::Preprocessing;

/// The residual of a condition is true exactly if the condition is.
///
/// Each use of an open name may have any number, and decided names have those of the table. If C
/// then gives the condition a value, it also gives the residual one, by the same numbers. Both
/// values are 0, or neither is (C11 6.5.13p3, 6.5.14p3, 6.10.1p6).
pub fn law_residual_truth()
    ensures truth { (table : List Argument) (rules : Rules) (e : Expression) (m : Choice e)
        (c : Number) → IsAllowed table m → HasValue e m c → (d : Number) ×
        HasValue (residual table rules e).tree (stay table rules m) d × (IsZero c ↔ IsZero d) }
    ensures one { (e : Expression) (m : Choice e) (c d : Number) → HasValue e m c →
        HasValue e m d → c ≡ d }
    ensures yes { (table : List Argument) (rules : Rules) (e : Expression) (m : Choice e)
        (c : Number) → IsAllowed table m → HasValue e m c →
        (residual table rules e).cond ≡ Cond.Yes → IsZero c → ⊥ }
    ensures no { (table : List Argument) (rules : Rules) (e : Expression) (m : Choice e)
        (c : Number) → IsAllowed table m → HasValue e m c →
        (residual table rules e).cond ≡ Cond.No → IsZero c }
    ensures allowed { (table : List Argument) (rules : Rules) (e : Expression) (m : Choice e) →
        IsAllowed table m → IsAllowed table (stay table rules m) }
{}

/// A simplified text has bytes of the text, in their order, and no others.
///
/// Simplifying again removes nothing. Its lines are the simplified lines of the text, one for one,
/// with their numbers. C reads each `#else` and `#endif` line as before, since only its comment
/// loses bytes.
pub fn law_simplified_text()
    ensures bytes { (table : List Argument) (rules : Rules) (bytes : List ℕ) →
        IsSublist (simplified_text table rules bytes) bytes }
    ensures again { (table : List Argument) (rules : Rules) (bytes : List ℕ) →
        simplified_text table rules (simplified_text table rules bytes) ≡
        simplified_text table rules bytes }
    ensures lines { (table : List Argument) (rules : Rules) (bytes : List ℕ) →
        lines_of (simplified_text table rules bytes) ≡
        map (simplified_line table rules) (read_as Mode.C bytes) }
    ensures closings { (table : List Argument) (rules : Rules) (bytes : List ℕ)
        (before after others more : List Reading) (r s : Reading) (d : Directive) →
        read_as Mode.C bytes ≡ before ++ r ∷ after →
        read_as Mode.C (simplified_text table rules bytes) ≡ others ++ s ∷ more →
        length others ≡ length before → content_of r.scan ≡ directive d →
        test_of d.kind ≡ Test.Nothing → (e : Directive) × (content_of s.scan ≡ directive e) ×
        (e.kind ≡ d.kind) × (spaced true e.after ≡ spaced true d.after) }
{}

/// A simplified text keeps a decided operand only for one of a few reasons.
///
/// Each `#if` and `#elif` of the text is reduced, or may stay as it is. In a reduced condition no
/// operand can be removed. So each one is unknown by itself, unless `&&` and `||` are strict.
pub fn law_operands_left()
    ensures { (table : List Argument) (rules : Rules) (bytes : List ℕ) (before after : List Reading)
        (r : Reading) (d : Directive) →
        read_as Mode.C (simplified_text table rules bytes) ≡ before ++ r ∷ after →
        content_of r.scan ≡ directive d → test_of d.kind ≡ Test.Nonzero →
        IsSimplified table rules r d }
{}

/// A further run over the simplified output copies it.
///
/// The arguments only decide conditions, without `-t`, and the input has no fault. No line of the
/// output is too long. The run over the simplified output then has no fault and no message, and its
/// status is that of a copy (unifdef(1)). So is the outcome of such a run under any options.
pub fn law_answer_simplified()
    ensures outcome { (o : Options) (input : List ℕ) (r : Outcome) → HasOutcome o input r →
        r.fault ≡ None → IsPlainC o → LinesFit (lines_of r.output) →
        let text = simplified_under o r.output in
        HasOutcome o text (record { output = text; fault = None; differs = false }) }
    ensures answer { (args : List (List ℕ)) (input : List ℕ) (a : Answer) → Succeeds args input a →
        IsPlainC (options_of args) → LinesFit (lines_of a.output) →
        let text = simplified_under (options_of args) a.output in
        IsAnswer args text (copy_answer args text) }
{}

/// A program stays the same, by logical lines, also if its files are simplified while folded.
///
/// This is `law_answer_processed` for a preprocessor that goes through the logical lines of files,
/// so that it decides whole conditions. Each file is replaced by a text that gives, if it is
/// folded, the output of a run over the folded file, perhaps simplified; or it is left alone. No
/// directive of the folded texts is over several lines (C11 5.1.1.2, phase 2, 6.10.1p4, p6,
/// 6.10.2).
pub fn law_answer_rewritten<P: Preprocessing>()
    ensures as_before { (o : Options) (prunes : Bool) → IsPlainC o → MayDecide o prunes P.decides →
        (k : RewrittenTree o prunes P.File) (f : P.File) (s t : P.State) →
        let p = over_logical_lines P.takes P.enters P.leaves P.decides in
        Processes p k.before (k.before f) s t → Processes p k.after (k.after f) s t }
    ensures only { (o : Options) (prunes : Bool) → IsPlainC o → MayDecide o prunes P.decides →
        (k : RewrittenTree o prunes P.File) (f : P.File) (s t u : P.State) →
        let p = over_logical_lines P.takes P.enters P.leaves P.decides in
        HasOneChoice p → Processes p k.before (k.before f) s t →
        Processes p k.after (k.after f) s u → u ≡ t }
    ensures nodes { (o : Options) (prunes : Bool) → IsPlainC o → (input final : List ℕ) →
        IsRewritten o prunes input final →
        ((ns : Nodes CLine) × IsCTree input ns) × ((us : Nodes CLine) × IsCTree final us) }
{}
