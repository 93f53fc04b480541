//! The settings of options and operands, and their faults (unifdef(1)).

ghost use Rattle.std.specs.Prelude.{◌≡◌, ◌≤◌, ◌++◌, ◌∷◌, List, length, take, drop, None, false};
ghost use Rattle.std.specs.Prelude.{is_some, option_map, IfOk, IfErr};
ghost use Rattle.ud_model.specs.answer.CommandLine.{option, parse_exit_mode, parse_symbol};
ghost use Rattle.ud_model.specs.answer.CommandLine.{parse_ignoring_symbol, parse_define};
ghost use Rattle.ud_model.specs.answer.CommandLine.{parse_undefine, symbol_named, first_fault};
ghost use Rattle.ud_model.specs.answer.CommandLine.{operand_in};
ghost use Rattle.ud_model.specs.answer.CommandLine.{ParsedArg as GivenInWords};
ghost use Rattle.ud_model.specs.answer.SymbolArguments.{name_before_equals, value_after_equals};
ghost use Rattle.ud_args.specs.ParsedArgs.{parsed_arg};
ghost use Rattle.ud_args.specs.ParsedSettings.{IsSetting, IsFaultOf, as_argument, with_flag};
ghost use Rattle.ud_args.specs.ParsedSettings.{with_names, after_first};

use crate::command_line::ParsedArg;
use crate::usage::Usage;
use ud_model::bytes::is_name;
use ud_model::{ExitMode, Listing, Settings};

/// A symbol that an option defines or undefines.
#[derive(Clone, Copy)]
pub(crate) struct Symbol<'a> {
    /// An identifier other than `defined`.
    pub name: &'a [u8],
    /// The value; `None` if the symbol is undefined.
    pub value: Option<&'a [u8]>,
    /// `true` if the sections that the symbol controls are plain text.
    pub ignoring: bool,
}

/// The setting of a valid option or operand.
#[derive(Clone, Copy)]
pub(crate) enum Setting<'a> {
    /// The letter of a flag.
    Flag { letter: char },
    /// The exit mode.
    Mode { mode: ExitMode },
    /// A symbol to define or undefine.
    Symbol { symbol: Symbol<'a> },
    /// An operand, and its index among the arguments, counted from 0.
    Operand { index: usize, name: &'a [u8] },
}

/// Returns the setting of the next option or operand. `after_operand`: an operand came before.
///
/// # Errors
/// `TooManyFiles` after an operand, else the fault of an option. Takes no memory.
pub(crate) fn parse_arg<'a>(given: ParsedArg<'a>, after_operand: bool) -> Result<Setting<'a>, Usage>
    ensures ok { IfOk result (IsSetting (parsed_arg given.entry)) }
    ensures err { (gs more : List GivenInWords) → first_fault gs ≡ None →
        is_some (operand_in gs) ≡ after_operand →
        IfErr result (IsFaultOf (first_fault (gs ++ parsed_arg given.entry ∷ more))) }
    ensures first { IfOk result (λ s. after_operand ≡ false) }
{
    if after_operand {
        return Err(Usage::TooManyFiles);
    }
    parse_setting(given)
}

/// Returns the setting of an option or an operand.
///
/// # Errors
/// `UnknownOption`, `MissingArgument`, `BadSymbol` or `BadMode`, each by `given` alone.
fn parse_setting<'a>(given: ParsedArg<'a>) -> Result<Setting<'a>, Usage>
    ensures ok { IfOk result (IsSetting (parsed_arg given.entry)) }
    ensures err { (more : List GivenInWords) →
        IfErr result (IsFaultOf (first_fault (parsed_arg given.entry ∷ more))) }
{
    match given {
        ParsedArg::Flag { letter } => Ok(Setting::Flag { letter }),
        ParsedArg::WithArgument {
            letter,
            word,
            argument,
        } => parse_option_with_argument(letter, word, argument.as_bytes()),
        ParsedArg::Operand { index, name } | ParsedArg::Late { index, name } => {
            let name = name.as_bytes();
            Ok(Setting::Operand { index, name })
        }
        ParsedArg::Unknown { letter } => Err(Usage::UnknownOption { letter }),
        ParsedArg::MissingArgument { letter } => Err(Usage::MissingArgument { letter }),
    }
}

/// Returns the setting of an option with its argument. `word` is the number of the command-line
/// argument that has the option's argument.
fn parse_option_with_argument(
    letter: char,
    word: usize,
    argument: &[u8],
) -> Result<Setting<'_>, Usage>
    ensures ok { IfOk result (IsSetting (option letter word argument.now)) }
    ensures err { (more : List GivenInWords) →
        IfErr result (IsFaultOf (first_fault (option letter word argument.now ∷ more))) }
{
    if letter == 'x' {
        let mode = parse_exit_mode(argument).ok_or(Usage::BadMode { word })?;
        Ok(Setting::Mode { mode })
    } else {
        let symbol = parse_symbol(letter, argument).ok_or(Usage::BadSymbol { word })?;
        Ok(Setting::Symbol { symbol })
    }
}

/// Returns the exit mode of this name.
fn parse_exit_mode(argument: &[u8]) -> Option<ExitMode>
    ensures { result ≡ parse_exit_mode argument.now }
{
    if argument == b"0".as_slice() {
        Some(ExitMode::Zero)
    } else if argument == b"1".as_slice() {
        Some(ExitMode::One)
    } else if argument == b"2".as_slice() {
        Some(ExitMode::Two)
    } else {
        None
    }
}

/// Returns the symbol of `-D`, `-U` or `-i` with this argument, or `None` if it names no symbol.
pub(crate) fn parse_symbol(letter: char, argument: &[u8]) -> Option<Symbol<'_>>
    ensures { option_map as_argument result ≡ parse_symbol letter argument.now }
{
    match letter {
        'D' => parse_define(argument, false),
        'U' => parse_undefine(argument, false),
        'i' => parse_ignoring_symbol(argument),
        _ => None,
    }
}

/// Returns the symbol of `-i` with this argument.
fn parse_ignoring_symbol(argument: &[u8]) -> Option<Symbol<'_>>
    ensures { option_map as_argument result ≡ parse_ignoring_symbol argument.now }
{
    let (letter, after) = argument.split_first()?;
    match *letter {
        b'D' => parse_define(after, true),
        b'U' => parse_undefine(after, true),
        _ => None,
    }
}

/// Parses `NAME` or `NAME=VALUE` as a symbol to define.
fn parse_define(argument: &[u8], ignoring: bool) -> Option<Symbol<'_>>
    ensures { option_map as_argument result ≡ parse_define ignoring argument.now }
{
    let end = name_len(argument);
    let name = &argument[..end];
    match argument[end..].split_first() {
        Some((_, value)) => symbol_named(name, Some(value), ignoring),
        None => symbol_named(name, Some(b"1"), ignoring),
    }
}

/// Parses a name as a symbol to undefine.
fn parse_undefine(argument: &[u8], ignoring: bool) -> Option<Symbol<'_>>
    ensures { option_map as_argument result ≡ parse_undefine ignoring argument.now }
{
    symbol_named(argument, None, ignoring)
}

/// Returns a symbol of this name, or `None` if no symbol may have it.
fn symbol_named<'a>(name: &'a [u8], value: Option<&'a [u8]>, ignoring: bool) -> Option<Symbol<'a>>
    ensures { option_map as_argument result ≡
        symbol_named name.now (option_map (λ v. v.now) value.entry) ignoring }
{
    if !is_name(name) {
        return None;
    }
    Some(Symbol {
        name,
        value,
        ignoring,
    })
}

/// Returns the number of bytes before the first `=`, or of all bytes if there is none.
fn name_len(argument: &[u8]) -> usize
    ensures bound { result ≤ length argument.now }
    ensures name { take result argument.now ≡ name_before_equals argument.now }
    ensures value { after_first (drop result argument.now) ≡ value_after_equals argument.now }
{
    argument
        .iter()
        .position(|byte| *byte == b'=')
        .unwrap_or(argument.len())
}

/// Returns the settings with one more flag. A listing with depths overrides one without.
pub(crate) fn with_flag(settings: Settings, letter: char) -> Settings
    ensures { result ≡ with_flag settings letter }
{
    match letter {
        't' => Settings {
            plain: true,
            ..settings
        },
        'k' => Settings {
            constants: true,
            ..settings
        },
        'K' => Settings {
            strict: true,
            ..settings
        },
        'b' | 'l' => Settings {
            blank: true,
            ..settings
        },
        'c' => Settings {
            complement: true,
            ..settings
        },
        'n' => Settings {
            renumber: true,
            ..settings
        },
        'S' => Settings {
            listing: Listing::Depths,
            ..settings
        },
        's' => Settings {
            listing: with_names(settings.listing),
            ..settings
        },
        _ => settings,
    }
}

/// Returns the listing after one more `-s`.
fn with_names(listing: Listing) -> Listing
    ensures { result ≡ with_names listing }
{
    match listing {
        Listing::Off | Listing::Names => Listing::Names,
        Listing::Depths => Listing::Depths,
    }
}
