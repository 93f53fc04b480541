//! What the words of unifdef-tree(1) give, and the plan by the options of unifdef(1) among them.

ghost use Rattle.std.specs.Prelude.{◌≡◌, ◌∷◌, [], IfOk, IfErr, map, string_bytes, option_map};
ghost use Rattle.ud_args.specs.ParsedArgs.{as_parsed, parsed};
ghost use Rattle.ud_args.specs.ParsedSettings.{IsUsageOf};
ghost use Rattle.ud_args.specs.Plans.{PlanRepresents};
ghost use Rattle.ud_args.specs.TreeWords.{given_in, has_flag, has_symbols, paths_in, patterns_in};
ghost use Rattle.ud_args.specs.TreeWords.{symbol_of, symbol_names};
ghost use Rattle.ud_args.specs.TreeWords.{is_unifdef_option, unifdef_args, option_word, word_at};
ghost use Rattle.ud_args.specs.TreeWords.{first_relation};

use crate::command_line::{CommandLine, ParsedArg};
use crate::least::{is_other_relation, least_symbol};
use crate::options::parse_symbol;
use crate::plans::{Plan, PlanDraft};
use crate::programs::Program;
use crate::usage::Usage;
use std::alloc::{AllocError, Global};
use std::collections::BTreeSet;

/// Returns what the words of a command line give, in reading order. They exclude the program's
/// name.
///
/// # Errors
/// Fails if memory runs out.
pub fn given_by(alloc: Global, words: &[String]) -> Result<Vec<ParsedArg<'_>>, AllocError>
    ensures { IfOk result (λ given. parsed given.items ≡ given_in (map string_bytes words.now)) }
{
    let mut given = Vec::new(alloc);
    let mut line = CommandLine::new(Program::UnifdefTree, words);
    'given: while let Some((item, after)) = line.next() {
        line = after;
        given.push(item)?;
    }
    Ok(given)
}

/// Returns whether the flag with this letter is given.
pub fn has_flag(given: &[ParsedArg<'_>], letter: char) -> bool
    ensures { result ≡ has_flag (letter ∷ []) (parsed given.now) }
{
    for item in given {
        if let ParsedArg::Flag { letter: flag } = *item
            && flag == letter
        {
            return true;
        }
    }
    false
}

/// Returns whether some option names a symbol.
pub fn has_symbols(given: &[ParsedArg<'_>]) -> bool
    ensures { result ≡ has_symbols (parsed given.now) }
{
    for item in given {
        if let ParsedArg::WithArgument {
            letter: 'D' | 'U' | 'i',
            ..
        } = *item
        {
            return true;
        }
    }
    false
}

/// Returns the name of an option's symbol, if the option is valid and names one.
fn symbol_of<'a>(given: ParsedArg<'a>) -> Option<&'a [u8]>
    ensures { option_map (λ n. n.now) result ≡ symbol_of (as_parsed given.entry) }
{
    let ParsedArg::WithArgument {
        letter,
        argument,
        ..
    } = given
    else {
        return None;
    };
    let argument = argument.as_bytes();
    match least_symbol(letter, argument) {
        Some(symbol) => Some(symbol.name),
        None => Some(parse_symbol(letter, argument)?.name),
    }
}

/// Returns the names of the symbols, in the order of their first options, each once.
///
/// # Errors
/// Fails if memory runs out.
pub fn symbol_names(alloc: Global, given: &[ParsedArg<'_>]) -> Result<Vec<Vec<u8>>, AllocError>
    ensures { IfOk result (λ names.
        map (λ n. n.items) names.items ≡ symbol_names (parsed given.now)) }
{
    let mut names = Vec::new(alloc);
    let mut seen = BTreeSet::new(alloc);
    for item in given {
        let Some(name) = symbol_of(*item) else {
            continue;
        };
        if seen.insert(name)? {
            names.push(Vec::from_slice(alloc, name)?)?;
        }
    }
    Ok(names)
}

/// Returns the paths.
///
/// # Errors
/// Fails if memory runs out.
pub fn paths(alloc: Global, given: &[ParsedArg<'_>]) -> Result<Vec<String>, AllocError>
    ensures { IfOk result (λ words. map string_bytes words.items ≡ paths_in (parsed given.now)) }
{
    let mut words = Vec::new(alloc);
    for item in given {
        if let ParsedArg::Operand { name, .. } = *item {
            words.push(String::from_str(alloc, name)?)?;
        }
    }
    Ok(words)
}

/// Returns the patterns of `-g`.
///
/// # Errors
/// Fails if memory runs out.
pub fn patterns(alloc: Global, given: &[ParsedArg<'_>]) -> Result<Vec<String>, AllocError>
    ensures { IfOk result (λ words. map string_bytes words.items ≡ patterns_in (parsed given.now)) }
{
    let mut words = Vec::new(alloc);
    for item in given {
        if let ParsedArg::WithArgument {
            letter: 'g',
            argument,
            ..
        } = *item
        {
            words.push(String::from_str(alloc, argument)?)?;
        }
    }
    Ok(words)
}

/// Returns whether an option is one of unifdef(1).
fn is_unifdef_option(given: ParsedArg<'_>) -> bool
    ensures { result ≡ is_unifdef_option (as_parsed given.entry) }
{
    match given {
        ParsedArg::Flag { letter } => matches!(letter, 'b' | 'c' | 'K' | 'k' | 'l' | 's' | 't'),
        ParsedArg::WithArgument { letter, .. } => matches!(letter, 'D' | 'U' | 'i' | 'x'),
        _ => false,
    }
}

/// Returns the plan by the options of unifdef(1).
///
/// # Errors
/// Their first fault, `BadSymbol` or `BadMode`. `OutOfMemory` if an allocation fails.
pub fn plan_among(alloc: Global, given: &[ParsedArg<'_>]) -> Result<Plan, Usage>
    ensures ok { IfOk result (λ plan. PlanRepresents plan (unifdef_args (parsed given.now))) }
    ensures err { IfErr result (IsUsageOf (unifdef_args (parsed given.now))) }
{
    let mut draft = PlanDraft::new(alloc);
    for item in given {
        if is_unifdef_option(*item) {
            draft.apply_in_tree(*item)?;
        }
    }
    draft.into_plan()
}

/// Returns, as one word, the option whose argument is in the word with this number. Returns the
/// empty word if there is none.
///
/// # Errors
/// Fails if memory runs out.
pub fn word_at(alloc: Global, given: &[ParsedArg<'_>], number: usize) -> Result<String, AllocError>
    ensures { IfOk result (λ word. string_bytes word ≡ word_at number (parsed given.now)) }
{
    for item in given {
        if let ParsedArg::WithArgument {
            letter,
            word,
            argument,
        } = *item
            && word == number
        {
            return option_word(alloc, letter, argument);
        }
    }
    Ok(String::new(alloc))
}

/// Returns, as one word, the first `-D` with a relation that gives no least value, if any.
///
/// # Errors
/// Fails if memory runs out.
pub fn first_relation(alloc: Global, given: &[ParsedArg<'_>]) -> Result<Option<String>, AllocError>
    ensures { IfOk result (λ word. option_map string_bytes word ≡
        first_relation (parsed given.now)) }
{
    for item in given {
        if let ParsedArg::WithArgument {
            letter,
            argument,
            ..
        } = *item
            && is_other_relation(letter, argument.as_bytes())
        {
            return Ok(Some(option_word(alloc, letter, argument)?));
        }
    }
    Ok(None)
}

/// Returns an option and its argument as one word.
fn option_word(alloc: Global, letter: char, argument: &str) -> Result<String, AllocError>
    ensures { IfOk result (λ word. string_bytes word ≡ option_word letter argument.now) }
{
    let mut word = String::from_str(alloc, "-")?;
    word.push(letter)?;
    word.push_str(argument)?;
    Ok(word)
}
