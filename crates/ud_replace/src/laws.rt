//! What the calls of `replace` amount to: functions without a body whose contracts are theorems.

ghost use Rattle.std.specs.Prelude.{◌≡◌, List, Result, ℕ, false};
ghost use Rattle.ud_replace.specs.declared.error.Update.{Update};
ghost use Rattle.ud_replace.specs.declared.error.ReplaceError.{ReplaceError};
ghost use Rattle.ud_replace.specs.declared.node.FileId.{FileId};
ghost use Rattle.ud_replace.specs.Calls.{Call};
ghost use Rattle.ud_replace.specs.Replacing.{Replaces};
ghost use Rattle.ud_replace.specs.Moments.{Files, AreTrue, EachCall, StaysOldOrNew};
ghost use Rattle.ud_replace.specs.Moments.{TouchesFreshOnly};
ghost use Rattle.ud_replace.specs.TextOutcomes.{TextOptions, TextOutcome, HasMarkedOutcome};

/// A text has one outcome at most, with its marks: the output, the fault, whether it differs, how
/// many conditions were edited, and what became of each line.
pub fn law_one_text_outcome()
    ensures { (o : TextOptions) (text : List ℕ) (r s : TextOutcome) (ms ns : List ℕ) →
        HasMarkedOutcome o text r ms → HasMarkedOutcome o text s ns → (r ≡ s) × (ms ≡ ns) }
{}

/// Whatever a directory answers, only the rename touches a file other than `fresh`. The rename
/// comes after `fresh` got the whole output and its bytes reached the disk, and after the file was
/// read again with the same bytes. Writing into files isn't allowed here.
pub fn law_one_rename()
    ensures { (o : TextOptions) (id : FileId) (name fresh text : List ℕ) (old new : List Call)
        (r : Result Update ReplaceError) → Replaces o false id name fresh text old new r →
        EachCall (TouchesFreshOnly o name fresh old) old new }
{}

/// If all answers are true, each file has its old bytes or the whole output for them after each
/// call. So a process killed between two calls leaves such a state. Writing into files isn't
/// allowed here.
pub fn law_old_or_new()
    ensures { (o : TextOptions) (f : Files) (id : FileId) (name fresh text : List ℕ)
        (old new : List Call) (r : Result Update ReplaceError) →
        Replaces o false id name fresh text old new r → AreTrue f new →
        StaysOldOrNew o name f old new }
{}
