//! Laws of options: what the user of an option may rely on.

ghost use Rattle.std.specs.Prelude.{◌≡◌, ◌≢◌, ℕ, List, None, Bool, true, false, ◌⊎◌, ℤ};
ghost use Rattle.ud_model.specs.conditions.Table.{Argument, HaveSameEntries};
ghost use Rattle.ud_model.specs.conditions.Expressions.{Expression};
ghost use Rattle.ud_model.specs.conditions.Values.{value_of};
ghost use Rattle.ud_model.specs.conditions.Conditions.{Rules, tree_cond, with_strict};
ghost use Rattle.ud_model.specs.conditions.Conditions.{without_strict, condition_of};
ghost use Rattle.ud_model.specs.sections.Items.{Options};
ghost use Rattle.ud_model.specs.answer.Outcomes.{Outcome, HasOutcome};
ghost use Rattle.ud_laws.specs.conditions.LeastValues.{ChoosesNumbers};
ghost use Rattle.ud_laws.specs.output.ListedNames.{with_listing};
ghost use Rattle.ud_laws.specs.output.ListedNames.{ExtendsTable, AreAlikeBy, ServesAsLister};
ghost use Rattle.ud_model.specs.declared.amount.Amount.{Amount};
ghost use Rattle.ud_model.specs.declared.cond.Cond.{Cond};
ghost use Rattle.ud_model.specs.declared.kind.Kind.{Kind};

/// The list of `-s` is complete: it has every symbol that counts for the text.
///
/// If `-s` lists the names of a text without a fault, only these symbols count: the listed ones,
/// and those that the value of a listed one leads to. Options with the same settings and the same
/// entry for each of them give the text the same outcome (unifdef(1)). If neither option is `-iD`
/// or `-iU`, a list made with any other symbols serves as well, and the fault is the same.
pub fn law_list_is_complete()
    ensures listed { (o p : Options) (input : List ℕ) (l r : Outcome) →
        HasOutcome (with_listing o) input l → l.fault ≡ None → AreAlikeBy l.output o p →
        HasOutcome o input r → HasOutcome p input r }
    ensures serves { (q o p : Options) (input : List ℕ) (l r : Outcome) → ServesAsLister q o →
        HasOutcome q input l → l.fault ≡ None → AreAlikeBy l.output o p →
        HasOutcome o input r → HasOutcome p input r }
{}

/// The last option that names a symbol counts.
///
/// Options with the same settings that give each name the same last entry give a text the same
/// outcome. The order in which symbols are named doesn't matter, nor how often (unifdef(1)).
pub fn law_last_option_counts()
    ensures { (o p : Options) (input : List ℕ) (r : Outcome) → p.settings ≡ o.settings →
        HaveSameEntries o.table p.table → HasOutcome o input r → HasOutcome p input r }
{}

/// `-K` decides no further condition, and none differently.
///
/// A value known under `-K` is known without it, and is the same. A condition decided under `-K` is
/// decided alike without it (unifdef(1)).
pub fn law_strict_decides_less()
    ensures value { (table : List Argument) (e : Expression) →
        value_of table true e ≢ Amount.Anything → value_of table false e ≡ value_of table true e }
    ensures cond { (table : List Argument) (e : Expression) (rules : Rules) →
        tree_cond e table (with_strict rules) ≢ Cond.Unknown →
        tree_cond e table (without_strict rules) ≡ tree_cond e table (with_strict rules) }
{}

/// Further symbols never reverse a condition.
///
/// If further symbols are named, a condition that was decided is decided alike, or is unknown: a
/// symbol's value may have a `u`, and an undefined symbol may be used with arguments. It is never
/// decided the other way round (C11 6.10.1p4, unifdef(1)).
pub fn law_more_never_turns()
    ensures value { (t u : List Argument) → ExtendsTable t u →
        (strict : Bool) (e : Expression) → value_of t strict e ≢ Amount.Anything →
        (value_of u strict e ≡ value_of t strict e) ⊎ (value_of u strict e ≡ Amount.Anything) }
    ensures cond { (t u : List Argument) → ExtendsTable t u → (e : Expression) (rules : Rules) →
        tree_cond e t rules ≢ Cond.Unknown →
        (tree_cond e u rules ≡ tree_cond e t rules) ⊎ (tree_cond e u rules ≡ Cond.Unknown) }
{}

/// A symbol that is at least N decides only what each number from N on decides.
///
/// Suppose one table has the least values of some symbols, and another one has numbers from there
/// on in their place. A value that the first table decides is the same by the second one. A
/// directive that the first table decides is decided alike by the second one (unifdef-tree(1),
/// `-D`).
pub fn law_least_decides_as_each()
    ensures value { (t u : List Argument) → ChoosesNumbers t u →
        (strict : Bool) (e : Expression) (n : ℤ) → value_of t strict e ≡ Amount.Exactly n →
        value_of u strict e ≡ Amount.Exactly n }
    ensures cond { (t u : List Argument) → ChoosesNumbers t u →
        (kind : Kind) (after : List ℕ) (rules : Rules) →
        (condition_of kind after t rules).cond ≢ Cond.Unknown →
        condition_of kind after u rules ≡ condition_of kind after t rules }
{}
