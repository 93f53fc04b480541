//! What the calls of a whole run amount to: functions without a body whose contracts are theorems.

ghost use Rattle.std.specs.Prelude.{◌≡◌, ◌+◌, ◌<◌, ◌^◌, List, false, length};
ghost use Rattle.std.specs.List.{All};
ghost use Rattle.ud_args.specs.CommandLines.{Parsed};
ghost use Rattle.ud_replace.specs.Calls.{Call};
ghost use Rattle.ud_replace.specs.Moments.{AreTrue, Files, EachCall};
ghost use Rattle.ud_replace.specs.TextOutcomes.{TextOptions, IsPlanned};
ghost use Rattle.ud_tree.specs.declared.arguments.Task.TheVariants.{Replace, Diff};
ghost use Rattle.ud_tree.specs.Requests.{IsArgumentsOf};
ghost use Rattle.ud_tree.specs.TreeDiffs.{ShowsDiffs};
ghost use Rattle.ud_tree.specs.TreeRuns.{Run, IsRun, IsClean, ProcessesFiles, TellsUnnamed};
ghost use Rattle.ud_tree.specs.TreeMoments.{TouchesNothing, TouchesFreshOrNone};
ghost use Rattle.ud_tree.specs.TreeMoments.{AnswersAreTrue, LeavesOldOrOutput};

use crate::tree::Tree;

/// If the status isn't 2, the input of `-0` was read whole, the walk has no message, and no file
/// has an error. The output hasn't failed and is flushed, and the error stream hasn't failed. This
/// assumes that a machine can count the messages.
pub fn law_run_status()
    ensures { (run : Run) → IsRun run → ¬ (run.ending.status ≡ 2) →
        length run.messages + 2 < 2 ^ 64 → IsClean run }
{}

/// If nothing is to be replaced, no call of a run touches a file, whatever the answers are.
pub fn law_run_reads()
    ensures { (run : Run) → IsRun run → ¬ (run.args.task ≡ Replace) →
        EachCall TouchesNothing run.old run.new }
{}

/// A run that shows what would change writes the diffs of the files that would change, in the order
/// of the files, or of the first ones if the output fails. Each diff turns the bytes read into the
/// whole output for them, and back. Then come the conditions that still name a symbol and the files
/// of other names that name one, if they are to be listed.
pub fn law_run_shows()
    ensures { (o : TextOptions) (run : Run) → IsRun run → IsPlanned run.args.plan o →
        run.args.task ≡ Diff → ShowsDiffs o run }
{}

/// If the arguments are those of a command line, the symbols of which the last lines say that no
/// condition names them are exactly those of its options that no condition of a file names, in the
/// order of the options; none in a quiet run. A run that lacked memory may have others. After an
/// error the last lines say nothing of them.
pub fn law_run_unnamed()
    ensures { (given : List Parsed) (run : Run) → IsArgumentsOf given run.args →
        (processes : ProcessesFiles run) → TellsUnnamed run processes }
{}

/// Whatever the answers are, only the renames of a run touch a file other than the current file's
/// new one. Each rename comes after the new file got the whole output. Writing into files isn't
/// allowed here.
pub fn law_run_renames()
    ensures { (o : TextOptions) (run : Run) → IsRun run → IsPlanned run.args.plan o →
        run.args.write_into ≡ false → EachCall (TouchesFreshOrNone o) run.old run.new }
{}

/// If all answers are true, each file has its old bytes or the whole output for them after each
/// call of a run (`files`). So a process killed between two calls leaves such a state. Writing into
/// files isn't allowed here. The answers are true if what the system answered is true (`answers`):
/// that there is evidence for each call is a clause of `run_tree`.
pub fn law_run_old_or_new<T: Tree>()
    ensures files { (o : TextOptions) (first : Files) (run : Run) → IsRun run →
        IsPlanned run.args.plan o → run.args.write_into ≡ false → AreTrue first run.new →
        EachCall (LeavesOldOrOutput o first run.old) run.old run.new }
    ensures answers { (first : Files) (calls : List Call) → ∥ All T.is_evident calls ∥₁ →
        AnswersAreTrue T.is_evident first calls → AreTrue first calls }
{}
