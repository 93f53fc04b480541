//! Laws over the definitions: functions without a body, whose contracts are theorems.
//!
//! The laws about options are in `option_laws`, those about the output in `output_laws`, and those
//! about the answer to arguments and an input in `answer_laws`.

ghost use Rattle.std.specs.Prelude.{◌≡◌, ◌≢◌, ◌++◌, ℕ, suc, List, [], ◌∷◌, length, map};
ghost use Rattle.std.specs.Prelude.{true, Bool, Option, Some, ℤ, pos, ◌≤ℤ◌};
ghost use Rattle.ud_model.specs.text.Lines.{Line, AreLines, AreSplitLines, texts_of, text_of};
ghost use Rattle.ud_model.specs.text.Lines.{lines_of, whole_lines, partial_line};
ghost use Rattle.ud_model.specs.text.Scans.{Reading};
ghost use Rattle.ud_model.specs.text.Lexemes.{Lexeme, LexemeKind, IsLexeme, AreLexemes, cells_of};
ghost use Rattle.ud_model.specs.text.Lexemes.{lexeme_at, lex};
ghost use Rattle.ud_model.specs.text.Scanning.{readings_of};
ghost use Rattle.ud_model.specs.declared.kind.Mode.{Mode};
ghost use Rattle.ud_model.specs.sections.Tree.{Item, Tree, lines};
ghost use Rattle.ud_model.specs.sections.Pruning.{marks, marks_in};
ghost use Rattle.ud_model.specs.aids.SoFar.{marks_so_far};
ghost use Rattle.ud_model.specs.sections.Items.{Options};
ghost use Rattle.ud_model.specs.answer.Printing.{Judged, tree_pieces};
ghost use Rattle.ud_model.specs.sections.Faults.{Fault, FaultOf, NoneHolds, cases};
ghost use Rattle.ud_model.specs.answer.Outcomes.{Outcome, ReadsAs, ReadsSoFar, HasOutcome};
ghost use Rattle.ud_model.specs.answer.Outcomes.{HasOutcomeSoFar};
ghost use Rattle.ud_model.specs.answer.Answer.{Answer, IsAnswer};
ghost use Rattle.ud_model.specs.conditions.Table.{Argument, HaveSameEntries};
ghost use Rattle.ud_model.specs.conditions.Symbols.{ResolvesTo, resolve};
ghost use Rattle.ud_model.specs.conditions.Expressions.{Expression, IsWritten};
ghost use Rattle.ud_model.specs.conditions.Parsing.{expression_of};
ghost use Rattle.ud_model.specs.conditions.Values.{value_of};
ghost use Rattle.ud_model.specs.conditions.Conditions.{Rules, tree_cond, expression_cond};
ghost use Rattle.ud_model.specs.conditions.Conditions.{condition_of};
ghost use Rattle.ud_model.specs.conditions.Names.{names_in, names_of};
ghost use Rattle.ud_model.specs.declared.amount.Amount.{Amount};
ghost use Rattle.ud_model.specs.declared.cond.Cond.{Cond};
ghost use Rattle.ud_model.specs.declared.kind.Kind.{Kind};
ghost use Rattle.ud_model.specs.laws.CValues.{Number, number, IsCValue};
ghost use Rattle.ud_model.specs.aids.Prefixes.{IsPrefix};

/// A text splits into lines in exactly one way.
///
/// Line k has the number k, and its body and its ending are its bytes. A text that goes on splits
/// into whole lines and a rest in exactly one way, too.
pub fn law_lines()
    ensures exists { (text : List ℕ) → AreLines text (texts_of text) }
    ensures only { (text : List ℕ) (ls : List (List ℕ)) → AreLines text ls → ls ≡ texts_of text }
    ensures bytes { (text : List ℕ) → map text_of (lines_of text) ≡ texts_of text }
    ensures number { (text : List ℕ) (prefix : List Line) (l : Line) (later : List Line) →
        lines_of text ≡ prefix ++ l ∷ later → l.number ≡ suc (length prefix) }
    ensures whole { (text : List ℕ) → AreSplitLines text
        (record { whole = whole_lines text; rest = partial_line text }) }
    ensures only_whole { (text : List ℕ) (ls : List (List ℕ)) (rest : List ℕ) →
        AreSplitLines text (record { whole = ls; rest = rest }) →
        (ls ≡ whole_lines text) × (rest ≡ partial_line text) }
{}

/// A spliced text splits into comments, literals and single bytes in exactly one way, and the
/// computed cells are the cells of these lexemes.
pub fn law_lexemes()
    ensures exists { (text : List ℕ) → (pieces : List Lexeme) × AreLexemes pieces text }
    ensures only { (text : List ℕ) (pieces others : List Lexeme) → AreLexemes pieces text →
        AreLexemes others text → pieces ≡ others }
    ensures cells { (text : List ℕ) (pieces : List Lexeme) → AreLexemes pieces text →
        cells_of pieces ≡ lex text }
    ensures extent { (a : ℕ) (bytes rest : List ℕ) (kind : LexemeKind) →
        IsLexeme (a ∷ bytes) rest kind → lexeme_at a (bytes ++ rest)
        ≡ record { kind = kind; more = length bytes } }
{}

/// Further lines never change the scans of the lines before them.
pub fn law_scans_stay()
    ensures { (ls more : List (Mode × Line)) →
        IsPrefix (readings_of ls) (readings_of (ls ++ more)) }
{}

/// The lines of a text are nested in one way at most.
pub fn law_one_tree()
    ensures { (t u : Tree Reading) → lines t ≡ lines u → t ≡ u }
{}

/// The verdict on a line depends only on it and the lines before it: the table over a whole section
/// agrees with the groups so far, and a longer text begins with the marks of the shorter one.
pub fn law_marks_stay()
    ensures table { (t : Tree Reading) → marks_in true t ≡ marks_so_far true t }
    ensures stays { (t u : Tree Reading) (more : List (Item Reading)) → lines u ≡ lines t ++ more →
        IsPrefix (marks t) (marks u) }
{}

/// A line has at most one fault, and none if no case holds.
pub fn law_one_fault()
    ensures one { (xs : List (Item Reading)) (x : Item Reading) (f g : Fault) → FaultOf xs x f →
        FaultOf xs x g → f ≡ g }
    ensures none { (xs : List (Item Reading)) (x : Item Reading) (f : Fault) →
        NoneHolds xs x cases → FaultOf xs x f → ⊥ }
{}

/// A fault of the text so far is the fault of every longer text, whether it goes on or has ended,
/// with the same output before it.
pub fn law_fault_stays()
    ensures { (o : Options) (given more : List ℕ) (r : Outcome) → HasOutcomeSoFar o given r →
        (f : Fault) → r.fault ≡ Some f → HasOutcomeSoFar o (given ++ more) r ×
        HasOutcome o (given ++ more) r }
{}

/// The reading and the output of a text so far are prefixes of those of every longer text, whether
/// it goes on or has ended.
///
/// So are the items; the lines' pieces, whatever piece each line has after the lines before it; and
/// the output, in each style and if names are listed.
pub fn law_output_grows()
    ensures items_so_far { (o : Options) (given more : List ℕ) (xs ys : List (Item Reading))
        (t u : Tree Reading) (f g : Option Fault) → ReadsSoFar o given xs t f →
        ReadsSoFar o (given ++ more) ys u g → IsPrefix xs ys }
    ensures items { (o : Options) (given more : List ℕ) (xs ys : List (Item Reading))
        (t u : Tree Reading) (f g : Option Fault) → ReadsSoFar o given xs t f →
        ReadsAs o (given ++ more) ys u g → IsPrefix xs ys }
    ensures pieces { (piece : List Judged → Judged → List ℕ) (t u : Tree Reading)
        (more : List (Item Reading)) → lines u ≡ lines t ++ more →
        IsPrefix (tree_pieces piece t) (tree_pieces piece u) }
    ensures output_so_far { (o : Options) (given more : List ℕ) (r s : Outcome) →
        HasOutcomeSoFar o given r → HasOutcomeSoFar o (given ++ more) s →
        IsPrefix r.output s.output }
    ensures output { (o : Options) (given more : List ℕ) (r s : Outcome) →
        HasOutcomeSoFar o given r → HasOutcome o (given ++ more) s →
        IsPrefix r.output s.output }
{}

/// A text has exactly one outcome, whether it has ended or goes on: that of its items.
pub fn law_one_outcome()
    ensures exists { (o : Options) (input : List ℕ) → (r : Outcome) × HasOutcome o input r }
    ensures only { (o : Options) (input : List ℕ) (r s : Outcome) → HasOutcome o input r →
        HasOutcome o input s → r ≡ s }
    ensures exists_so_far { (o : Options) (given : List ℕ) →
        (r : Outcome) × HasOutcomeSoFar o given r }
    ensures only_so_far { (o : Options) (given : List ℕ) (r s : Outcome) →
        HasOutcomeSoFar o given r → HasOutcomeSoFar o given s → r ≡ s }
{}

/// Arguments and an input have exactly one answer.
pub fn law_one_answer()
    ensures exists { (args : List (List ℕ)) (input : List ℕ) →
        (a : Answer) × IsAnswer args input a }
    ensures only { (args : List (List ℕ)) (input : List ℕ) (a b : Answer) → IsAnswer args input a →
        IsAnswer args input b → a ≡ b }
{}

/// A text has one expression tree at most, and the computed tree is that one (C11 6.5).
pub fn law_one_expression()
    ensures only { (text : List ℕ) (e f : Expression) → IsWritten text e → IsWritten text f →
        e ≡ f }
    ensures found { (text : List ℕ) (e : Expression) → IsWritten text e →
        expression_of text ≡ Some e }
    ensures written { (text : List ℕ) (e : Expression) → expression_of text ≡ Some e →
        IsWritten text e }
{}

/// The tree of the text of an `#if` or `#elif` gives its condition and its names. Without a tree,
/// the condition is unknown and there are no names.
pub fn law_expression_cond()
    ensures cond { (text : List ℕ) (e : Expression) (table : List Argument) (rules : Rules) →
        IsWritten text e → expression_cond text table rules ≡ tree_cond e table rules }
    ensures unknown { (text : List ℕ) (table : List Argument) (rules : Rules) →
        ((e : Expression) → IsWritten text e → ⊥) →
        expression_cond text table rules ≡ Cond.Unknown }
    ensures names { (text : List ℕ) (e : Expression) → IsWritten text e →
        names_of Kind.If text ≡ names_in e }
    ensures no_names { (text : List ℕ) → ((e : Expression) → IsWritten text e → ⊥) →
        names_of Kind.If text ≡ [] }
{}

/// Tables with the same entry for every name decide every directive alike.
pub fn law_condition_by_entries()
    ensures { (table other : List Argument) → HaveSameEntries table other →
        (kind : Kind) (after : List ℕ) (rules : Rules) →
        condition_of kind after table rules ≡ condition_of kind after other rules }
{}

/// A symbol resolves, from name to name, to the computed text and to no other.
pub fn law_symbol_end()
    ensures found { (table : List Argument) (n v : List ℕ) → ResolvesTo table n v →
        resolve table n ≡ Some v }
    ensures ends { (table : List Argument) (n v : List ℕ) → resolve table n ≡ Some v →
        ResolvesTo table n v }
{}

/// A known value is the C value, and a decided condition is true or false as in C.
///
/// Suppose the value of an expression is known, with or without `strict`. Then C can give the
/// expression only this number, whatever the names are that the table leaves open (C11 6.10.1p4,
/// 6.5). If the value is known to be at least a number, so are all that C can give.
pub fn law_known_stays()
    ensures value { (table : List Argument) (strict : Bool) (e : Expression) (n : ℤ) (c : Number) →
        value_of table strict e ≡ Amount.Exactly n → IsCValue table e c → number c ≡ n }
    ensures least { (table : List Argument) (strict : Bool) (e : Expression) (n : ℤ) (c : Number) →
        value_of table strict e ≡ Amount.AtLeast n → IsCValue table e c → n ≤ℤ number c }
    ensures yes { (table : List Argument) (rules : Rules) (e : Expression) (c : Number) →
        tree_cond e table rules ≡ Cond.Yes → IsCValue table e c → number c ≢ pos 0 }
    ensures no { (table : List Argument) (rules : Rules) (e : Expression) (c : Number) →
        tree_cond e table rules ≡ Cond.No → IsCValue table e c → number c ≡ pos 0 }
{}
