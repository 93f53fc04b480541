//! Laws of the output: the meaning of a text that was pruned and printed.

ghost use Rattle.std.specs.Prelude.{◌≡◌, ℕ, List, not, false, bytes_eq, None};
ghost use Rattle.ud_model.specs.text.Lines.{lines_of};
ghost use Rattle.ud_model.specs.text.Scans.{Reading};
ghost use Rattle.ud_model.specs.sections.Tree.{Nodes, closed, with_lines};
ghost use Rattle.ud_model.specs.sections.Items.{Options};
ghost use Rattle.ud_model.specs.answer.Outcomes.{Outcome, HasOutcome};
ghost use Rattle.ud_model.specs.laws.Worlds.{World, Agrees};
ghost use Rattle.ud_model.specs.laws.Pruned.{Edited, IsPruned, IsUndecided};
ghost use Rattle.ud_model.specs.laws.Rereading.{IsTreeOf, IsClean, CleanRun, LinesFit, line_bytes};
ghost use Rattle.ud_model.specs.laws.Rereading.{edited_bytes, KeepsTruths, PrintsText};
ghost use Rattle.ud_model.specs.laws.Rereading.{selected_bytes};

/// The exit status reports whether the output is a copy.
///
/// Lines aren't numbered (`-n`), no names are listed (`-s`, `-S`), and the text has no fault. Then
/// some line differs exactly if output and input are different bytes (unifdef(1)).
pub fn law_changed()
    ensures { (o : Options) → PrintsText o → (input : List ℕ) (r : Outcome) →
        HasOutcome o input r → r.fault ≡ None → r.differs ≡ not (bytes_eq r.output input) }
{}

/// The output needs no further run of unifdef(1).
///
/// The output has a tree whose sections are all closed: the pruned tree of the input, each line as
/// it is printed. No opener of it has a decided condition. Unless a line of the output is too long,
/// a run over the output prints it unchanged, without a fault.
pub fn law_reread()
    ensures tree { (o : Options) (input : List ℕ) (r : Outcome) → IsClean o input r →
        (ns : Nodes Reading) → IsTreeOf o input (closed ns) →
        (us : Nodes Reading) × IsTreeOf o r.output (closed us) }
    ensures left { (k : CleanRun) (ps : Nodes (Edited Reading)) → IsPruned k.before ps →
        with_lines line_bytes k.after ≡
        with_lines (edited_bytes k.options.settings.unpadded) ps }
    ensures undecided { (k : CleanRun) → IsUndecided k.after }
    ensures again { (o : Options) (input : List ℕ) (r : Outcome) → IsClean o input r →
        LinesFit (lines_of r.output) → HasOutcome o r.output
        (record { output = r.output; fault = None; differs = false }) }
{}

/// A world selects the same lines of input and output.
///
/// Each opener of the output can be given the truth of the opener it comes from. If the world
/// agrees with the input's decided conditions, it then selects the same lines from both, byte by
/// byte (C11 6.10.1p6).
pub fn law_selected()
    ensures truths { (k : CleanRun) (w : World Reading) →
        (v : World Reading) × KeepsTruths w k.before v k.after }
    ensures same { (k : CleanRun) (w v : World Reading) → Agrees w k.before →
        KeepsTruths w k.before v k.after →
        selected_bytes v k.after ≡ selected_bytes w k.before }
{}
