//! What `unifdef-tree -p` makes of a file, as the laws of `ud_laws` speak of it.
//!
//! Those laws are about texts and programs, and `ud_replace` defines the output for a file. This
//! crate has the law that joins them, since neither of the two uses the other.
#![tactic(auto)]

ghost use Rattle.std.specs.Prelude.{◌≡◌, ℕ, List, None, true};
ghost use Rattle.std.specs.List.{list_all};
ghost use Rattle.ud_model.specs.text.Lines.{lines_of};
ghost use Rattle.ud_model.specs.answer.Outcomes.{Outcome, HasOutcome};
ghost use Rattle.ud_model.specs.text.Scans.{Reading};
ghost use Rattle.ud_model.specs.sections.Items.{Options};
ghost use Rattle.ud_model.specs.sections.Tree.{Nodes, closed};
ghost use Rattle.ud_model.specs.aids.ReadAs.{read_as};
ghost use Rattle.ud_model.specs.declared.kind.Mode.{Mode};
ghost use Rattle.ud_model.specs.laws.Rereading.{LinesFit, IsPlainC, IsTreeOf};
ghost use Rattle.ud_simplified.specs.FoldedTexts.{folded_text};
ghost use Rattle.ud_laws.specs.output.ProcessedFiles.{IsOutput};
ghost use Rattle.ud_laws.specs.output.LogicalProcessing.{IsRewritten, HasNoLong};
ghost use Rattle.ud_laws.specs.output.InsertedLines.{IsBlankLine};
ghost use Rattle.ud_laws.specs.output.InsertedNodes.{LinesWithInserted};
ghost use Rattle.ud_passes.specs.squeezing.SqueezedTexts.{stays, squeezed_text};
ghost use Rattle.ud_tree_laws.specs.SqueezedSelection.{SelectsButBlanks};
ghost use Rattle.ud_replace.specs.TextOutcomes.{TextOptions, IsFolded, pruned, folded};

/// The pruned output of a file is what the laws of programs are about: `law_answer_rewritten`, and
/// by lines `law_answer_processed`.
///
/// The text has no fault, and no line of the output of the run is too long. By logical lines, no
/// directive is over several lines in the text and its output, or in both once they are folded.
pub fn law_pruned_file()
    ensures folded { (o : TextOptions) (text : List ℕ) (a : Outcome) → IsFolded o text a →
        LinesFit (lines_of a.output) → HasNoLong (folded_text text) →
        HasNoLong (pruned o.run a).output → IsRewritten o.run true text (folded o.run a).output }
    ensures unfolded { (o : TextOptions) (text : List ℕ) (a : Outcome) → HasOutcome o.run text a →
        a.fault ≡ None → LinesFit (lines_of a.output) → HasNoLong text →
        HasNoLong (pruned o.run a).output → IsRewritten o.run true text (pruned o.run a).output }
    ensures lines { (o : TextOptions) (text : List ℕ) (a : Outcome) → HasOutcome o.run text a →
        a.fault ≡ None → LinesFit (lines_of a.output) →
        IsOutput o.run true text (pruned o.run a).output }
{}

/// Only blank lines outside comments go from a squeezed text, whatever the marks are.
///
/// The lines of the output are those of its squeezed text with blank lines inserted. Each of these
/// has an empty body and is scanned by itself. All other lines have the same bytes and the same
/// scans in both texts (C11 5.1.1.2). If no line of the input went, no line of the output goes.
pub fn law_squeezed_lines()
    ensures lines { (ms output : List ℕ) → LinesWithInserted IsBlankLine
        (read_as Mode.C (squeezed_text ms output)) (read_as Mode.C output) }
    ensures same { (ms output : List ℕ) → list_all stays ms ≡ true →
        squeezed_text ms output ≡ output }
{}

/// C selects the same lines of a squeezed text as of the output, but for blank lines.
///
/// The options only decide conditions, without `-t`. If the output has a tree, its squeezed text
/// has the same one without some blank lines. If each opener has the same truth in both, C selects
/// the same lines of both, and blank ones of the output (C11 6.10.1p6).
pub fn law_squeezed_selects()
    ensures { (o : Options) → IsPlainC o → (ms output : List ℕ) (ns : Nodes Reading) →
        IsTreeOf o output (closed ns) → SelectsButBlanks o (squeezed_text ms output) ns }
{}
