//! The plan of a run, as set by the arguments of a command line.
//!
//! The settings record the flags as they were given: `-n` stays on beside `-b`. Rejected: settings
//! that are made consistent, which no caller could compare with the arguments.
//!
//! The arguments are read twice, by `input_of` before the file is opened and by `plan` inside
//! `tool`. Rejected: handing the plan to `tool`, where a caller could pass another one.

ghost use Rattle.std.specs.Prelude.{◌≡◌, [], List, Some, None, IsSome, IfOk, IfErr, IfSome, IfNone};
ghost use Rattle.std.specs.Prelude.{option_map};
ghost use Rattle.ud_cond.specs.CondViews.{argument_for};
ghost use Rattle.ud_model.specs.answer.CommandLine.{ParsedArg as GivenInWords, argument_in};
ghost use Rattle.ud_args.specs.ParsedArgs.{as_parsed, parsed_arg};
ghost use Rattle.ud_args.specs.ParsedSettings.{IsSetting, IsUsageOf, SetsSymbol};
ghost use Rattle.ud_args.specs.LeastSymbols.{least_argument};
ghost use Rattle.ud_args.specs.TreeWords.{unifdef_arg};
ghost use Rattle.ud_args.specs.Drafts.{AddsGiven, FailsAt};
ghost use Rattle.ud_args.specs.Plans.{PlanRepresents};

use crate::command_line::ParsedArg;
use crate::least::{LeastSymbol, least_symbol, least_value};
use crate::options::{Setting, parse_arg, with_flag};
use crate::usage::Usage;
use std::alloc::Global;
use std::marker::Model;
use ud_cond::{SymbolRow, Symbols};
use ud_model::Settings;

/// The plan of a run: the settings, the symbols and the operand of a command line.
#[derive(Drop)]
pub struct Plan {
    /// The settings, as given.
    settings: Settings,
    /// The table of symbols.
    symbols: Symbols,
    /// The operand's index among the arguments, counted from 0.
    operand: Option<usize>,
}

impl Model for Plan {
    ghost use Rattle.ud_args.specs.Plans.{PlanState};

    ghost Value = { PlanState };

    ghost view = { λ p. record {
      settings = p.settings;
      symbols = p.symbols;
      operand =
          p.operand;
    } };
}

impl Plan {
    ghost use Rattle.ud_args.specs.Plans.{with_unpadded};

    /// Returns the settings as given: `renumber` stays true with `blank`, and both with a listing.
    pub fn settings(&self) -> Settings
        ensures { result ≡ self.now.settings }
    {
        self.settings
    }

    /// Returns the table of symbols.
    pub fn symbols(&self) -> &Symbols
        ensures { result.now ≡ self.now.symbols }
    {
        &self.symbols
    }

    /// Returns the operand's index among the arguments, counted from 0; `None` if there is no
    /// operand.
    pub fn operand(&self) -> Option<usize>
        ensures { result ≡ self.now.operand }
    {
        self.operand
    }

    /// Returns the plan under which, if `unpadded`, no spaces replace the lost bytes of a keyword.
    pub fn with_unpadded(self, unpadded: bool) -> Plan
        ensures { result ≡ with_unpadded unpadded self }
    {
        let settings = Settings {
            unpadded,
            ..self.settings
        };
        Plan { settings, ..self }
    }
}

/// A plan in the making, from options and operands.
#[derive(Drop)]
pub(crate) struct PlanDraft {
    /// The allocator that memory comes from.
    alloc: Global,
    /// The settings so far.
    settings: Settings,
    /// A row for each option so far that sets a symbol, in order.
    rows: Vec<SymbolRow>,
    /// The operand's index among the arguments, counted from 0.
    operand: Option<usize>,
}

impl Model for PlanDraft {
    ghost use Rattle.ud_args.specs.Plans.{PlanState};

    ghost Value = { PlanState };

    ghost view = { λ p. record {
      settings = p.settings;
      symbols = p.rows.items;
      operand =
          p.operand;
    } };
}

impl PlanDraft {
    /// Returns a draft without arguments. Its symbols take memory from `alloc`.
    pub(crate) fn new(alloc: Global) -> PlanDraft
        ensures { PlanRepresents result [] }
    {
        PlanDraft {
            alloc,
            settings: Settings::default(),
            rows: Vec::new(alloc),
            operand: None,
        }
    }

    /// Adds the next option or operand.
    ///
    /// # Errors
    /// The fault of `given`. Or `OutOfMemory`, if `given` is valid and sets a symbol, and the
    /// allocation for it fails. The draft is then useless.
    pub(crate) fn apply(&mut self, given: ParsedArg<'_>) -> Result<(), Usage>
        ensures ok { AddsGiven (parsed_arg given.entry) self.old self.new result }
        ensures err { FailsAt (parsed_arg given.entry) self.old result }
    {
        let setting = parse_arg(given, self.operand.is_some())?;
        self.set(setting)
    }

    /// Adds the next option or operand of unifdef-tree(1), as `apply` adds one of unifdef(1).
    ///
    /// # Errors
    /// As `apply`.
    pub(crate) fn apply_in_tree(&mut self, given: ParsedArg<'_>) -> Result<(), Usage>
        ensures ok { AddsGiven (unifdef_arg (as_parsed given.entry)) self.old self.new result }
        ensures err { FailsAt (unifdef_arg (as_parsed given.entry)) self.old result }
    {
        match least_in(given) {
            Some(symbol) => self.apply_least(symbol),
            None => self.apply(given),
        }
    }

    /// Adds a symbol with its least value.
    ///
    /// # Errors
    /// `TooManyFiles` after an operand. `OutOfMemory` if an allocation fails.
    fn apply_least(&mut self, least: LeastSymbol<'_>) -> Result<(), Usage>
        ensures ok { (g : GivenInWords) → SetsSymbol g (least_argument least.entry) →
            AddsGiven g self.old self.new result }
        ensures err { (g : GivenInWords) → SetsSymbol g (least_argument least.entry) →
            FailsAt g self.old result }
    {
        if self.operand.is_some() {
            return Err(Usage::TooManyFiles);
        }
        let value = least_value(self.alloc, least.number)?;
        self.set_symbol(least.name, Some(value.as_slice()), false)
    }

    /// Adds a setting to the draft, which has no operand yet.
    ///
    /// # Errors
    /// `OutOfMemory` if an allocation for a symbol fails.
    fn set(&mut self, setting: Setting<'_>) -> Result<(), Usage>
        ensures ok { (g : GivenInWords) → self.old.operand ≡ None → IsSetting g setting.entry →
            AddsGiven g self.old self.new result }
        ensures err { (g : GivenInWords) → IsSetting g setting.entry →
            IfErr result (λ u. (u ≡ Usage.OutOfMemory) × IsSome (argument_in g)) }
    {
        match setting {
            Setting::Flag { letter } => {
                self.settings = with_flag(self.settings, letter);
                Ok(())
            }
            Setting::Mode { mode } => {
                self.settings.exit_mode = mode;
                Ok(())
            }
            Setting::Symbol { symbol } => {
                self.set_symbol(symbol.name, symbol.value, symbol.ignoring)
            }
            Setting::Operand { index, .. } => {
                self.operand = Some(index);
                Ok(())
            }
        }
    }

    /// Adds a symbol, which is undefined if `value` is `None`. The draft has no operand yet.
    ///
    /// # Errors
    /// `OutOfMemory` if an allocation fails.
    fn set_symbol(&mut self, name: &[u8], value: Option<&[u8]>, ignoring: bool) -> Result<(), Usage>
        ensures ok { (g : GivenInWords) → self.old.operand ≡ None → SetsSymbol g
            (argument_for name.now (option_map (λ v. v.now) value.entry) ignoring) →
            AddsGiven g self.old self.new result }
        ensures err { IfErr result (λ u. u ≡ Usage.OutOfMemory) }
    {
        let row = SymbolRow::of(self.alloc, name, value, ignoring)?;
        if self.rows.push(row).is_err() {
            return Err(Usage::OutOfMemory);
        }
        Ok(())
    }

    /// Returns the plan, with the table of all symbols.
    ///
    /// # Errors
    /// `OutOfMemory` if an allocation for the table fails.
    pub(crate) fn into_plan(self) -> Result<Plan, Usage>
        ensures ok { IfOk result (λ plan. (gs : List GivenInWords) → PlanRepresents self gs →
            PlanRepresents plan gs) }
        ensures err { (gs : List GivenInWords) → PlanRepresents self gs →
            IfErr result (IsUsageOf gs) }
    {
        Ok(Plan {
            settings: self.settings,
            symbols: Symbols::from_rows(self.alloc, self.rows)?,
            operand: self.operand,
        })
    }
}

/// Returns the symbol of an option that gives the least value of one.
fn least_in<'a>(given: ParsedArg<'a>) -> Option<LeastSymbol<'a>>
    ensures symbol { IfSome result (λ l. SetsSymbol (unifdef_arg (as_parsed given.entry))
        (least_argument l)) }
    ensures none { IfNone result (unifdef_arg (as_parsed given.entry) ≡ parsed_arg given.entry) }
{
    let ParsedArg::WithArgument {
        letter,
        argument,
        ..
    } = given
    else {
        return None;
    };
    least_symbol(letter, argument.as_bytes())
}
