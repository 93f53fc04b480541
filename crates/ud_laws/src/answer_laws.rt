//! Laws of answers: the laws of the output, stated for arguments, an input and the answer to them.

ghost use Rattle.std.specs.Prelude.{◌≡◌, ℕ, List, map, not, bytes_eq, Bool};
ghost use Rattle.ud_model.specs.text.Lines.{lines_of};
ghost use Rattle.ud_model.specs.text.Scans.{Reading};
ghost use Rattle.ud_model.specs.sections.Tree.{Tree, Nodes, closed, lines};
ghost use Rattle.ud_model.specs.sections.Items.{Options, reading_of, mode_by};
ghost use Rattle.ud_model.specs.answer.CommandLine.{options_of};
ghost use Rattle.ud_model.specs.answer.Answer.{Answer, IsAnswer, status_by};
ghost use Rattle.ud_laws.specs.answer.Successes.{copy_answer, Succeeds};
ghost use Rattle.ud_model.specs.laws.Worlds.{selected};
ghost use Rattle.ud_model.specs.laws.Rereading.{IsPlain, IsTreeOf, LinesFit, IsPlainC, PrintsText};
ghost use Rattle.ud_laws.specs.output.CSelection.{SelectsAlike};
ghost use Rattle.ud_model.specs.conditions.Table.{Argument};
ghost use Rattle.ud_laws.specs.output.GoneSymbols.{SelectsWithout};
ghost use Rattle.ud_laws.specs.output.LiveLines.{LeavesLive, SelectsLive};
ghost use Rattle.ud_model.specs.aids.ReadAs.{read_as};
ghost use Rattle.ud_laws.specs.output.Processing.{Processes, over_readings, HasOneChoice};
ghost use Rattle.ud_laws.specs.output.ProcessedFiles.{FileTree, IsPrinted, IsOutput};
ghost use Rattle.ud_laws.specs.output.DecidedByNumbers.{MayDecide, AreTrue, decides_by};
ghost use Rattle.ud_model.specs.laws.CValues.{Number};

use crate::output_laws::Preprocessing;

/// A second run changes nothing.
///
/// The arguments only decide conditions: none of -s, -S, -b, -l, -c, -n, -iD and -iU is given. The
/// input has no fault, and no line of the output is too long. The answer to the same arguments and
/// that output is then that output again, without a message, and with the status of a copy
/// (unifdef(1)).
pub fn law_answer_again()
    ensures { (args : List (List ℕ)) (input : List ℕ) (a : Answer) → Succeeds args input a →
        IsPlain (options_of args) → LinesFit (lines_of a.output) →
        IsAnswer args a.output (copy_answer args a.output) }
{}

/// A C compiler selects the same text from input and output, unless `-t` is given.
///
/// The arguments only decide conditions, and the input has no fault. Each symbol that the options
/// don't name may be any number, and C may decide each evaluated condition in any way that this
/// allows. C then selects the same lines from the output as from the input, byte by byte. Each line
/// is read as C reads it. Under `-t` it is read by itself, with comments as plain text, so a
/// compiler may select others (C11 5.1.1.2, 6.10.1p4, p6).
pub fn law_answer_selects()
    ensures readings { (args : List (List ℕ)) → IsPlain (options_of args) →
        (text : List ℕ) (t : Tree Reading) → IsTreeOf (options_of args) text t →
        map (λ x. reading_of x) (lines t)
        ≡ read_as (mode_by (options_of args).settings.plain) text }
    ensures selected { (args : List (List ℕ)) (input : List ℕ) (a : Answer) →
        Succeeds args input a → IsPlain (options_of args) →
        SelectsAlike (options_of args) input a.output }
{}

/// A program stays the same, file by file and include by include, unless `-t` is given.
///
/// The options only decide conditions, without `-t`. Each file of a tree is replaced by its output,
/// perhaps simplified if `prunes`, or left alone. A preprocessor goes through a file and the files
/// it includes, and each line that it takes may change its state. It decides each condition in its
/// current state, in a way that C may if the options are true; if `prunes`, by numbers for the uses
/// of names, which stay the same if other operands are removed. Whatever state it can reach with
/// the files, it can reach with what replaces them, by the same lines in the same order (C11
/// 5.1.1.2, 6.10.1p4, p6, 6.10.2). If it never has more than one choice, it reaches no other.
///
/// A preprocessor decides so if each of its states gives each name a number.
pub fn law_answer_processed<P: Preprocessing>()
    ensures as_before { (o : Options) (prunes : Bool) → IsPlainC o → MayDecide o prunes P.decides →
        (k : FileTree o prunes P.File) (f : P.File) (s t : P.State) →
        let p = over_readings P.takes P.enters P.leaves P.decides in
        Processes p k.before (k.before f) s t → Processes p k.after (k.after f) s t }
    ensures only { (o : Options) (prunes : Bool) → IsPlainC o → MayDecide o prunes P.decides →
        (k : FileTree o prunes P.File) (f : P.File) (s t u : P.State) →
        let p = over_readings P.takes P.enters P.leaves P.decides in
        HasOneChoice p → Processes p k.before (k.before f) s t →
        Processes p k.after (k.after f) s u → u ≡ t }
    ensures answers { (args : List (List ℕ)) (input : List ℕ) (a : Answer) →
        Succeeds args input a → IsPrinted (options_of args) input a.output }
    ensures nodes { (o : Options) (prunes : Bool) → IsPlainC o → (input output : List ℕ) →
        IsOutput o prunes input output → (ns : Nodes Reading) → IsTreeOf o input (closed ns) →
        (us : Nodes Reading) × IsTreeOf o output (closed us) }
    ensures names { (o : Options) (prunes : Bool) (value : P.State → List ℕ → Number)
        (is_known : P.State → List ℕ → Bool) →
        ((s : P.State) → AreTrue o.table (value s) (is_known s)) →
        MayDecide o prunes (decides_by value is_known) }
{}

/// After a run, the build may forget a symbol that no condition of the output names.
///
/// The arguments only decide conditions, without `-t`, and the input has no fault. Compile the
/// output with any other definition of that symbol, or with none. C may then decide the output's
/// conditions as it may decide the input's with the options, and it selects the same lines, byte by
/// byte (C11 6.10.1p4, p6).
pub fn law_answer_symbol_is_gone()
    ensures { (args : List (List ℕ)) (input : List ℕ) (a : Answer) → Succeeds args input a →
        IsPlainC (options_of args) → (name : List ℕ) (u : List Argument) →
        SelectsWithout (options_of args) name u input a.output }
{}

/// Exactly the dead lines are removed.
///
/// The arguments only decide conditions, and the input has no fault. A text line is live if some
/// world that agrees with the decided conditions selects it. The text lines of the output are then
/// the live ones of the input, byte by byte and in order (unifdef(1)). Each line that C may select
/// is live, so C selects no line that is removed (C11 6.10.1p4, p6). A line that stays is selected
/// if C gives the unknown conditions the truths of such a world. Whether it may do so depends on
/// what they say: `#if 0` is unknown without `-k`, and never true.
pub fn law_answer_only_dead()
    ensures live { (args : List (List ℕ)) (input : List ℕ) (a : Answer) → Succeeds args input a →
        IsPlain (options_of args) → LeavesLive (options_of args) input a.output }
    ensures in_c { (args : List (List ℕ)) (input : List ℕ) (a : Answer) → Succeeds args input a →
        SelectsLive (options_of args) input }
{}

/// The status reports whether output and input differ.
///
/// The arguments have none of -n, -s and -S, and the input has no fault. The status is then the one
/// for changed lines exactly if output and input are different bytes (unifdef(1)). Under `-x2` both
/// statuses are 0.
pub fn law_answer_status()
    ensures { (args : List (List ℕ)) (input : List ℕ) (a : Answer) → Succeeds args input a →
        PrintsText (options_of args) → a.status
        ≡ status_by (options_of args).settings.exit_mode (not (bytes_eq a.output input)) }
{}
