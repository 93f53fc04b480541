//! Laws of pruned texts.

ghost use Rattle.std.specs.Prelude.{◌≡◌, ℕ, List};
ghost use Rattle.ud_model.specs.text.Lines.{lines_of};
ghost use Rattle.ud_model.specs.conditions.Table.{Argument};
ghost use Rattle.ud_model.specs.conditions.Conditions.{Rules};
ghost use Rattle.ud_model.specs.laws.Rereading.{LinesFit};
ghost use Rattle.ud_simplified.specs.SimplifiedTexts.{simplified_text};
ghost use Rattle.ud_passes.specs.pruning.PrunedTexts.{pruned_text};

/// If no line is too long, the pruned text is the simplified text.
pub fn law_pruned_text()
    ensures { (table : List Argument) (rules : Rules) (bytes : List ℕ) →
        LinesFit (lines_of bytes) →
        pruned_text table rules bytes ≡ simplified_text table rules bytes }
{}
