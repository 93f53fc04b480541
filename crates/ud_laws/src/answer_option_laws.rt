//! Laws of options, stated for arguments and answers: what the user of an option may rely on.
//!
//! `option_laws` states them for options and outcomes. The clause `answer` of the tool carries them
//! over to the program: an answer here is what the program writes and returns.

ghost use Rattle.std.specs.Prelude.{◌≡◌, ◌≢◌, ◌∷◌, codes, ℕ, List, [], map, None, Bool, false};
ghost use Rattle.ud_model.specs.text.Lines.{lines_of, partial_line};
ghost use Rattle.ud_model.specs.sections.Items.{mode_by};
ghost use Rattle.ud_model.specs.answer.CommandLine.{has_flag, parsed_args, usage_fault, options_of};
ghost use Rattle.ud_laws.specs.answer.OptionArguments.{AddsOption};
ghost use Rattle.ud_model.specs.answer.Answer.{Answer, IsAnswer};
ghost use Rattle.ud_laws.specs.answer.Successes.{JudgesAs, Succeeds};
ghost use Rattle.ud_model.specs.answer.Printing.{Judged};
ghost use Rattle.ud_laws.specs.output.ListedNames.{with_listing, AreAlikeArgs, ListsNames};
ghost use Rattle.ud_laws.specs.output.ListedNames.{NeverCounts};
ghost use Rattle.ud_laws.specs.output.BlankedLines.{AreBlankedBy, Blanks, endings_of};
ghost use Rattle.ud_laws.specs.output.SharedLines.{OnlyDecides, with_complement, ShareLines};
ghost use Rattle.ud_laws.specs.output.SharedLines.{AnswersWithComplement};
ghost use Rattle.ud_laws.specs.output.StrictLines.{under_strict, KeepAsMuch, pieces_of};
ghost use Rattle.ud_laws.specs.output.InsertedLines.{KeepsNumbers, CountsLines, AnswersNumbered};
ghost use Rattle.ud_model.specs.aids.ReadAs.{read_as};
ghost use Rattle.ud_laws.specs.output.InsertedNodes.{StillSelects};
ghost use Rattle.ud_laws.specs.output.PresumedLines.{HasNoLineDirective, Presumed, Presumes};
ghost use Rattle.ud_laws.specs.output.PresumedLines.{NumbersAsInput, NumbersSelected};
ghost use Rattle.ud_laws.specs.output.PresumedLines.{HaveOwnNumbers};
ghost use Rattle.ud_model.specs.laws.Worlds.{selected};
ghost use Rattle.ud_model.specs.declared.kind.Mode.{Mode};

/// The list of `-s` is complete for arguments, too.
///
/// `-s` before arguments without `-S` lists the names of an input without a fault. Other arguments
/// have the same settings, and agree with these on each listed symbol and on every symbol its value
/// leads to. Both then have the same answer (unifdef(1)).
pub fn law_answer_by_list()
    ensures lists { (args : List (List ℕ)) → has_flag (codes "S") (parsed_args args) ≡ false →
        options_of (codes "-s" ∷ args) ≡ with_listing (options_of args) }
    ensures same { (args more : List (List ℕ)) (input : List ℕ) (l a : Answer) →
        ListsNames args input l → Succeeds args input a → AreAlikeArgs l.output args more →
        IsAnswer more input a }
{}

/// One more option changes nothing if its symbol isn't on the list of `-s`.
///
/// The option is `-DX`, `-DX=VALUE` or `-UX`, anywhere among the options, also first or last. `-s`
/// before the other arguments, which have no `-S`, lists the names of the input without a fault. X
/// isn't on the list, and no symbol has the value X. Then the answer is the same (unifdef(1)).
pub fn law_answer_with_option()
    ensures { (args more : List (List ℕ)) (name input : List ℕ) (a : Answer) →
        AddsOption name args more → NeverCounts args input name → Succeeds args input a →
        IsAnswer more input a }
{}

/// Under `-b` line k of the output is line k of the input, its edited form, or its ending alone.
///
/// The output has as many lines as the input, with the same endings, if the input has no fault and
/// ends in a newline. With a fault, this is so up to the last line that was read (unifdef(1)).
pub fn law_answer_in_place()
    ensures as_many { (args : List (List ℕ)) (input : List ℕ) (a : Answer) →
        Blanks (options_of args) → partial_line input ≡ [] → Succeeds args input a →
        endings_of a.output ≡ endings_of input }
    ensures places { (args : List (List ℕ)) (input : List ℕ) (js : List Judged) (a : Answer) →
        Blanks (options_of args) → JudgesAs args input js → IsAnswer args input a →
        AreBlankedBy (options_of args) js a.output }
{}

/// A run and the same run with `-c` print each line that was read exactly once between them.
///
/// The arguments have none of `-s`, `-S`, `-b`, `-l`, `-c` and `-n`, and `-c` comes before them.
/// The run without `-c` prints the lines that stay, perhaps edited. The run with `-c` prints those
/// that the other removes, unchanged. Both have the same message (unifdef(1)).
pub fn law_answer_complement()
    ensures words { (args : List (List ℕ)) → options_of (codes "-c" ∷ args)
        ≡ with_complement (options_of args) }
    ensures message { (args : List (List ℕ)) (input : List ℕ) (a c : Answer) →
        AnswersWithComplement args input a c → usage_fault args ≡ None → c.message ≡ a.message }
    ensures shared { (args : List (List ℕ)) (input : List ℕ) (js : List Judged) (a c : Answer) →
        AnswersWithComplement args input a c → JudgesAs args input js →
        ShareLines js a.output c.output }
{}

/// `-K` removes no further text line.
///
/// `-K` comes before the other arguments. Line by line, as far as both runs read: a text line that
/// is removed with `-K` is removed without it, too. A run reads up to its first fault, or to the
/// end, and either run may have a fault that the other lacks. Without `-s`, `-S`, `-b`, `-l`, `-c`
/// and `-n`, the output is the pieces of the lines that were read (unifdef(1)).
pub fn law_answer_strict_keeps_text()
    ensures words { (args : List (List ℕ)) →
        options_of (codes "-K" ∷ args) ≡ under_strict (options_of args) }
    ensures text { (args : List (List ℕ)) (input : List ℕ) (js ks : List Judged) →
        JudgesAs args input js → JudgesAs (codes "-K" ∷ args) input ks → KeepAsMuch js ks }
    ensures all { (args : List (List ℕ)) (input : List ℕ) (js : List Judged) (a : Answer) →
        JudgesAs args input js → Succeeds args input a →
        map (λ (j : Judged). j.line) js ≡ lines_of input }
    ensures output { (args : List (List ℕ)) (input : List ℕ) (js : List Judged) (a : Answer) →
        OnlyDecides (options_of args) → JudgesAs args input js → IsAnswer args input a →
        a.output ≡ pieces_of js }
{}

/// Under `-n` and `-b` a compiler selects the same lines, and each line keeps its number.
///
/// The other arguments only decide conditions: none of `-s`, `-S`, `-b`, `-l`, `-c`, `-n`, `-iD`
/// and `-iU`. The selected lines of the output are those of the input, but for the inserted ones.
/// Under `-t` this is as the tool reads them, with comments as plain text, and a compiler may
/// select others. Counting on from line to line, and anew after each inserted `#line`, each line
/// has its number in the input. Without `-t` a compiler counts alike, but for the input's own
/// `#line` directives, which it obeys, and those in a group that it skips, which it ignores (C11
/// 6.10.1p6, 6.10.4p3, unifdef(1)).
pub fn law_answer_numbers()
    ensures renumbers { (args : List (List ℕ)) → usage_fault args ≡ None →
        KeepsNumbers args (codes "-n" ∷ args) }
    ensures blanks { (args : List (List ℕ)) → usage_fault args ≡ None →
        KeepsNumbers args (codes "-b" ∷ args) }
    ensures counted { (args more : List (List ℕ)) (input : List ℕ) (js : List Judged)
        (a c : Answer) → AnswersNumbered args more input a c → JudgesAs args input js →
        CountsLines (options_of args) js a.output c.output }
    ensures selects { (args more : List (List ℕ)) (input : List ℕ) (a c : Answer) →
        AnswersNumbered args more input a c → a.status ≢ 2 →
        StillSelects (options_of args) input a.output c.output }
{}

/// Under `-n` and `-b` a line that C processes has the presumed number of the line for which it is
/// printed.
///
/// The arguments are those of `law_answer_numbers`, and lines are read as there. The output without
/// `-n` and `-b` has no `#line` of its own. A line is sure if C has skipped no inserted `#line`
/// since the last one that it obeyed. Each sure line that isn't inserted is printed for the line of
/// the input that has its presumed number. In an input without a `#line` that is also the line's
/// presumed number (C11 6.10.4p2, 6.10.4p3, 6.10.1p6, unifdef(1)).
pub fn law_answer_presumed_lines()
    ensures presumed { (args more : List (List ℕ)) (input : List ℕ) (js : List Judged)
        (a c : Answer) → AnswersNumbered args more input a c → JudgesAs args input js →
        let mode = mode_by (options_of args).settings.plain in
        HasNoLineDirective mode a.output → NumbersAsInput mode js c.output }
    ensures selected { (args more : List (List ℕ)) (input : List ℕ) (js : List Judged)
        (a c : Answer) → AnswersNumbered args more input a c → JudgesAs args input js →
        HasNoLineDirective (mode_by (options_of args).settings.plain) a.output →
        NumbersSelected (options_of args) c.output }
    ensures own { (mode : Mode) (text : List ℕ) → HasNoLineDirective mode text →
        (ps : List Presumed) (sure : Bool) (n : ℕ) → Presumes (read_as mode text) ps sure n →
        HaveOwnNumbers ps }
{}
