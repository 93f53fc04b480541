//! The law of pruned trees, and what the laws of answers call a preprocessor.

ghost use Rattle.std.specs.Prelude.{◌↔◌, ℕ, List, Bool};
ghost use Rattle.ud_model.specs.text.Scans.{Scan, Reading};
ghost use Rattle.ud_model.specs.sections.Tree.{Nodes};
ghost use Rattle.ud_model.specs.laws.Pruned.{Edited, IsPruned, ArePruned};
ghost use Rattle.ud_model.specs.laws.WrittenConditions.{Condition};

/// The pruned tree is what the table of verdicts leaves, section by section.
///
/// A section that gives way leaves the nodes of its first kept group. Each other section keeps its
/// kept groups in order, each with the opener that the table leaves, and one `#endif` (unifdef(1)).
pub fn law_pruned()
    ensures { (ns : Nodes Reading) (ps : Nodes (Edited Reading)) →
        IsPruned ns ps ↔ ArePruned ns ps }
{}

/// A preprocessor: what it may do in each state. It may have several choices, or none (C11 5.1.1.2,
/// 6.10).
pub trait Preprocessing {
    /// All that a preprocessor knows between two lines: macros, text written, open files.
    type State;
    /// A file that a line may include.
    type File;
    // A text line with these bytes and this scan leads from the first state to the second one.
    ghost takes: { Self.State → List ℕ → Scan → Self.State → Type 0 };
    // In the first state such a line includes the file, which begins in the second one.
    ghost enters: { Self.State → List ℕ → Scan → Self.File → Self.State → Type 0 };
    // After the end of an included file, in the first state, it goes on in the second one.
    ghost leaves: { Self.State → Self.State → Type 0 };
    // In the first state the condition may have this truth, and then the second state follows.
    ghost decides: { Self.State → Condition → Bool → Self.State → Type 0 };
}
