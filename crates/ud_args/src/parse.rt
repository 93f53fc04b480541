//! The parser of a command line: its plan, its input and its faults.

ghost use Rattle.std.specs.Prelude.{◌≡◌, ◌∷◌, [], None, Some, map, string_bytes, option_map, IfOk};
ghost use Rattle.std.specs.Prelude.{IfErr};
ghost use Rattle.ud_model.specs.answer.CommandLine.{ParsedArg, usage_fault, parsed_args};
ghost use Rattle.ud_model.specs.answer.CommandLine.{operand_in, input_of, display_name};
ghost use Rattle.ud_args.specs.ParsedSettings.{IsSetting, IsFaultOf, IsUsageOf};
ghost use Rattle.ud_args.specs.Plans.{IsPlanOf, as_operand};

use crate::command_line::CommandLine;
use crate::options::{Setting, parse_arg};
use crate::plans::{Plan, PlanDraft};
use crate::programs::Program;
use crate::usage::Usage;
use std::alloc::Global;

/// Parses the arguments of a command line, without the program's name, into the plan of a run.
///
/// Up to the first operand or `--`, an argument of `-` and more consists of option letters. An
/// option's own argument is the rest after its letter or, if that is empty, the whole next
/// argument. Memory is taken only for the symbols.
///
/// # Errors
/// The first fault in reading order: `UnknownOption`, `MissingArgument`, `BadSymbol`, `BadMode`, or
/// `TooManyFiles` for the argument after an operand.
///
/// `OutOfMemory` if an allocation fails while a symbol is added or the table is made. The arguments
/// up to some symbol then have no fault. Arguments without a valid `-D`, `-U` or `-i` before their
/// first fault never give this error.
///
/// (POSIX XBD 12.2, unifdef(1))
///
/// # Examples
/// ```rust
/// let args = [
///     String::from_str(alloc, "-bDA")?,
///     String::from_str(alloc, "in.c")?,
/// ];
/// let plan = plan(alloc, &args)?;
/// println!(rt; "blank: {}", plan.settings().blank)?;
/// println!(rt; "A is listed: {}", plan.symbols().find(b"A").is_some())?;
/// println!(rt; "operand: {:?}", plan.operand())?;
/// ```
/// ```text
/// blank: true
/// A is listed: true
/// operand: Some(1)
/// ```
pub fn plan(alloc: Global, args: &[String]) -> Result<Plan, Usage>
    ensures ok { IfOk result (IsPlanOf (map string_bytes args.now)) }
    ensures err { IfErr result (IsUsageOf (parsed_args (map string_bytes args.now))) }
{
    let mut draft = PlanDraft::new(alloc);
    let mut line = CommandLine::new(Program::Unifdef, args);
    'given: while let Some((given, after)) = line.next() {
        line = after;
        draft.apply(given)?;
    }
    draft.into_plan()
}

/// Returns the index of the operand that names a file, counted from 0 among the arguments.
///
/// Returns `None` if the arguments have a fault, if there is no operand, or if the operand is `-`,
/// the standard input. Takes no memory.
pub fn input_of(args: &[String]) -> Option<usize>
    ensures { result ≡ input_of (map string_bytes args.now) }
{
    match find_operand(args) {
        Ok(Some(operand)) => operand.file_index(),
        Ok(None) | Err(_) => None,
    }
}

/// Returns the input's name in messages: the operand, or `stdin` if there is none or it is `-`.
///
/// `plan` is the arguments' plan. Takes no memory.
pub fn display_name<'a>(plan: &Plan, args: &'a [String]) -> &'a [u8]
    ensures { IsPlanOf (map string_bytes args.now) plan.now →
        result.now ≡ display_name (map string_bytes args.now) }
{
    match operand_in(plan, args) {
        Some(operand) => operand.display_name(),
        None => b"stdin",
    }
}

/// Returns the operand of the arguments. `plan` is their plan.
fn operand_in<'a>(plan: &Plan, args: &'a [String]) -> Option<Operand<'a>>
    ensures { IsPlanOf (map string_bytes args.now) plan.now →
        option_map as_operand result ≡ operand_in (parsed_args (map string_bytes args.now)) }
{
    let index = plan.operand()?;
    let name = args.get(index)?.as_bytes();
    Some(Operand { index, name })
}

/// An operand of a command line.
#[derive(Clone, Copy)]
pub(crate) struct Operand<'a> {
    /// The index among the arguments, counted from 0.
    pub index: usize,
    /// The bytes of the operand, which may be empty.
    pub name: &'a [u8],
}

impl<'a> Operand<'a> {
    ghost use Rattle.ud_model.specs.answer.CommandLine.{is_stdin, file_index, name_or_stdin};

    /// Returns whether the operand is `-`, the standard input.
    fn is_stdin(&self) -> bool
        ensures { result ≡ is_stdin self.now.name.now }
    {
        self.name == b"-".as_slice()
    }

    /// Returns the index of an operand that names a file; `-` is the standard input.
    fn file_index(&self) -> Option<usize>
        ensures { result ≡ file_index (Some (as_operand self.now)) }
    {
        if self.is_stdin() {
            None
        } else {
            Some(self.index)
        }
    }

    /// Returns the operand's name in messages.
    fn display_name(&self) -> &'a [u8]
        ensures { result.now ≡ name_or_stdin (Some (as_operand self.now)) }
    {
        if self.is_stdin() { b"stdin" } else { self.name }
    }
}

/// Returns the operand of arguments without a fault. Takes no memory.
///
/// # Errors
/// The first fault in reading order, which is never `OutOfMemory`.
fn find_operand(args: &[String]) -> Result<Option<Operand<'_>>, Usage>
    ensures ok { IfOk result (λ o. (usage_fault (map string_bytes args.now) ≡ None)
        × (option_map as_operand o ≡ operand_in (parsed_args (map string_bytes args.now)))) }
    ensures err { IfErr result (IsFaultOf (usage_fault (map string_bytes args.now))) }
{
    let mut line = CommandLine::new(Program::Unifdef, args);
    let mut operand = None;
    'given: while let Some((given, after)) = line.next() {
        line = after;
        operand = as_operand(parse_arg(given, operand.is_some())?);
    }
    Ok(operand)
}

/// Returns the operand, if the setting is one.
fn as_operand(setting: Setting<'_>) -> Option<Operand<'_>>
    ensures { (g : ParsedArg) → IsSetting g setting.entry →
        option_map as_operand result ≡ operand_in (g ∷ []) }
{
    match setting {
        Setting::Operand { index, name } => Some(Operand { index, name }),
        Setting::Flag { .. } | Setting::Mode { .. } | Setting::Symbol { .. } => None,
    }
}
