//! The arguments of unifdef-tree(1), by POSIX XBD 12.2: options first, then paths.

ghost use Rattle.std.specs.Prelude.{◌≡◌, None, IfOk, IfErr, IfSome, IfNone, map, string_bytes};
ghost use Rattle.std.specs.Prelude.{◌∷◌, [], codes, true};
ghost use Rattle.ud_args.specs.ParsedArgs.{parsed};
ghost use Rattle.ud_args.specs.ParsedSettings.{IsUsageOf};
ghost use Rattle.ud_args.specs.Plans.{with_unpadded};
ghost use Rattle.ud_args.specs.TreeWords.{given_in, first_fault, has_flag, patterns_in};
ghost use Rattle.ud_args.specs.TreeWords.{first_relation, unifdef_args};
ghost use Rattle.ud_tree.specs.PatternFaults.{first_bad};
ghost use Rattle.ud_tree.specs.Requests.{IsRequestOf, IsArgumentsOf, IsFaultIn};
ghost use Rattle.ud_tree.specs.Requests.{AreFitting, HasNoChange, LeavesLines, decides, is_one_of};
ghost use Rattle.ud_tree.specs.Requests.{shows_diffs, task_of};

use crate::patterns::faults::{PatternFault, first_bad};
use std::alloc::Global;
use ud_args::{
    ParsedArg, Plan, Usage, first_relation, given_by, has_flag, has_symbols, paths, patterns,
    plan_among, symbol_names, word_at,
};
use ud_replace::TextPlan;

/// The task of a run.
#[derive(Clone, Copy, Debug, PartialEq, Eq)]
pub enum Task {
    /// Each file is replaced by the output for it.
    Replace,
    /// A diff shows what would change.
    Diff,
    /// The names that conditions depend on are counted.
    Names,
}

/// The arguments of a run.
#[derive(Drop)]
pub struct Arguments {
    /// The plan for the text of each file.
    pub plan: TextPlan,
    /// The rules by which files are chosen: patterns, some after `!` or `+`.
    pub patterns: Vec<String>,
    /// The paths.
    pub paths: Vec<String>,
    /// The task.
    pub task: Task,
    /// True if files that can't be replaced are written into.
    pub write_into: bool,
    /// True if the paths of files come from the input.
    pub from_input: bool,
    /// True if the last lines, with the counts, are left out.
    pub quiet: bool,
    /// True if the conditions that still name a symbol are listed.
    pub list_remaining: bool,
    /// True if the conditions whose names can't all be listed are listed.
    pub list_hidden: bool,
    /// True if the diff of each changed file is printed.
    pub show_changes: bool,
    /// True if some option names a symbol.
    pub has_symbols: bool,
    /// The names of the symbols, each once.
    pub names: Vec<Vec<u8>>,
}

impl Arguments {
    ghost use Rattle.std.specs.Prelude.{◌≡◌, ◌&&◌, ◌||◌, not};
    ghost use Rattle.ud_tree.specs.Others.{wants_others};

    /// Returns whether to search for conditions that still name a symbol, to list or count them.
    pub(crate) fn search_remaining(&self) -> bool
        ensures { result ≡ (self.now.has_symbols &&
            (self.now.list_remaining || not self.now.quiet)) }
    {
        self.has_symbols && (self.list_remaining || !self.quiet)
    }

    /// Returns whether to tell of files of other names that name a symbol.
    pub(crate) fn wants_others(&self) -> bool
        ensures { result ≡ wants_others self.now }
    {
        self.has_symbols && self.list_remaining && !self.quiet && !self.from_input
    }
}

/// The request of a command line.
#[derive(Drop)]
pub enum Request {
    /// The usage and a line for each option.
    Help,
    /// The version.
    Version,
    /// A run.
    Run(Arguments),
}

/// The fault of a command line.
#[derive(Drop)]
pub enum ArgumentFault {
    /// A letter that is no option.
    UnknownOption(char),
    /// An option without the argument that it takes.
    MissingArgument(char),
    /// An argument of `-D`, `-U` or `-i` that names no symbol, with its option.
    BadSymbol(String),
    /// An argument of `-D` with a relation that gives no least value, with its option.
    BadRelation(String),
    /// An argument of `-x` that is no exit mode.
    BadMode(String),
    /// An argument of `-g` that isn't taken, and why.
    BadPattern(String, PatternFault),
    /// `-s` together with this flag, which it would ignore.
    BesideNames(char),
    /// `-s` together with an option that names a symbol.
    SymbolsAndNames,
    /// `-p` and `-c` together.
    PruningAndComplement,
    /// `-p` and `-t` together.
    PruningAndPlain,
    /// `-B` together with this flag.
    SqueezingBeside(char),
    /// An option after the first path.
    OptionAfterPath(String),
    /// Paths together with `-0`.
    PathsAndInput,
    /// No path.
    NoPath,
    /// Neither a symbol nor `-k` nor `-s`, so nothing is asked for.
    NoSymbol,
    /// Memory couldn't be allocated.
    OutOfMemory,
}

/// Returns what the arguments, without the program's name, ask for.
///
/// # Errors
/// The first fault of the words from left to right. Else incompatible options, the first `-D` with
/// a relation that gives no least value, the first fault of the options of unifdef, the first fault
/// of a pattern, or a fault of the paths. `OutOfMemory` if memory can't be allocated. Nothing was
/// done.
pub fn parse_arguments(alloc: Global, words: &[String]) -> Result<Request, ArgumentFault>
    ensures request { IfOk result (IsRequestOf (given_in (map string_bytes words.now))) }
    ensures fault { IfErr result (IsFaultIn (given_in (map string_bytes words.now))) }
{
    let Ok(given) = given_by(alloc, words) else {
        return Err(ArgumentFault::OutOfMemory);
    };
    request_of(alloc, given.as_slice())
}

/// Returns what the options and paths ask for.
///
/// # Errors
/// As `parse_arguments`.
fn request_of(alloc: Global, given: &[ParsedArg<'_>]) -> Result<Request, ArgumentFault>
    ensures request { IfOk result (IsRequestOf (parsed given.now)) }
    ensures fault { IfErr result (IsFaultIn (parsed given.now)) }
{
    if let Some(fault) = word_fault(alloc, given) {
        return Err(fault);
    }
    if has_flag(given, 'h') {
        return Ok(Request::Help);
    }
    if has_flag(given, 'V') {
        return Ok(Request::Version);
    }
    match clash(given) {
        Some(fault) => Err(fault),
        None => Ok(Request::Run(run_of(alloc, given)?)),
    }
}

/// Returns the first fault of the words, if any.
fn word_fault(alloc: Global, given: &[ParsedArg<'_>]) -> Option<ArgumentFault>
    ensures fault { IfSome result (IsFaultIn (parsed given.now)) }
    ensures right { IfNone result (first_fault (parsed given.now) ≡ None) }
{
    for item in given {
        match *item {
            ParsedArg::Unknown { letter } => return Some(ArgumentFault::UnknownOption(letter)),
            ParsedArg::MissingArgument { letter } => {
                return Some(ArgumentFault::MissingArgument(letter));
            }
            ParsedArg::Late { name, .. } => {
                return match String::from_str(alloc, name) {
                    Ok(word) => Some(ArgumentFault::OptionAfterPath(word)),
                    Err(_) => Some(ArgumentFault::OutOfMemory),
                };
            }
            ParsedArg::Flag { .. } | ParsedArg::WithArgument { .. } | ParsedArg::Operand { .. } =>
                {}
        }
    }
    None
}

/// Returns the fault if some options are incompatible.
fn clash(given: &[ParsedArg<'_>]) -> Option<ArgumentFault>
    ensures fault { IfSome result (IsFaultIn (parsed given.now)) }
    ensures fits { IfNone result (AreFitting (parsed given.now)) }
{
    if has_flag(given, 's') {
        if let Some(letter) = beside_names(given) {
            return Some(ArgumentFault::BesideNames(letter));
        }
        if has_symbols(given) {
            return Some(ArgumentFault::SymbolsAndNames);
        }
    }
    if has_flag(given, 'B') {
        if let Some(letter) = beside_squeezing(given) {
            return Some(ArgumentFault::SqueezingBeside(letter));
        }
    }
    let prunes = has_flag(given, 'p');
    if prunes && has_flag(given, 'c') {
        Some(ArgumentFault::PruningAndComplement)
    } else if prunes && has_flag(given, 't') {
        Some(ArgumentFault::PruningAndPlain)
    } else {
        None
    }
}

/// Returns a flag that says how files are changed, if one is given.
fn beside_names(given: &[ParsedArg<'_>]) -> Option<char>
    ensures letter { IfSome result (λ c. is_one_of (codes "ndpBwbcKkl") c ≡ true) }
    ensures given { IfSome result (λ c. has_flag (c ∷ []) (parsed given.now) ≡ true) }
    ensures fits { IfNone result (HasNoChange (parsed given.now)) }
{
    if has_flag(given, 'n') {
        Some('n')
    } else if has_flag(given, 'd') {
        Some('d')
    } else if has_flag(given, 'p') {
        Some('p')
    } else if has_flag(given, 'B') {
        Some('B')
    } else if has_flag(given, 'w') {
        Some('w')
    } else if has_flag(given, 'b') {
        Some('b')
    } else if has_flag(given, 'c') {
        Some('c')
    } else if has_flag(given, 'K') {
        Some('K')
    } else if has_flag(given, 'k') {
        Some('k')
    } else if has_flag(given, 'l') {
        Some('l')
    } else {
        None
    }
}

/// Returns a flag with which no blank lines can go, if one is given.
fn beside_squeezing(given: &[ParsedArg<'_>]) -> Option<char>
    ensures letter { IfSome result (λ c. is_one_of (codes "blct") c ≡ true) }
    ensures given { IfSome result (λ c. has_flag (c ∷ []) (parsed given.now) ≡ true) }
    ensures fits { IfNone result (LeavesLines (parsed given.now)) }
{
    if has_flag(given, 'b') {
        Some('b')
    } else if has_flag(given, 'l') {
        Some('l')
    } else if has_flag(given, 'c') {
        Some('c')
    } else if has_flag(given, 't') {
        Some('t')
    } else {
        None
    }
}

/// Returns the arguments of a run, whose options are compatible.
///
/// # Errors
/// The first `-D` with a relation that gives no least value, the first fault of the options of
/// unifdef, the first fault of a pattern, or a fault of the paths. `OutOfMemory` if memory can't be
/// allocated.
fn run_of(alloc: Global, given: &[ParsedArg<'_>]) -> Result<Arguments, ArgumentFault>
    requires { AreFitting (parsed given.now) }
    ensures run { IfOk result (IsArgumentsOf (parsed given.now)) }
    ensures fault { IfErr result (IsFaultIn (parsed given.now)) }
{
    if let Some(fault) = relation_fault(alloc, given) {
        return Err(fault);
    }
    let run = match plan_among(alloc, given) {
        Ok(run) => run,
        Err(usage) => return Err(option_fault(alloc, given, usage)),
    };
    let patterns = patterns_of(alloc, given)?;
    let Ok(paths) = paths(alloc, given) else {
        return Err(ArgumentFault::OutOfMemory);
    };
    let from_input = has_flag(given, '0');
    if from_input && !paths.is_empty() {
        return Err(ArgumentFault::PathsAndInput);
    }
    if !from_input && paths.is_empty() {
        return Err(ArgumentFault::NoPath);
    }
    if !decides(given) {
        return Err(ArgumentFault::NoSymbol);
    }
    let Ok(symbols) = symbol_names(alloc, given) else {
        return Err(ArgumentFault::OutOfMemory);
    };
    let names = has_flag(given, 's');
    let lists = has_flag(given, 'r');
    Ok(Arguments {
        plan: text_plan(run, given),
        patterns,
        paths,
        task: task_of(given),
        write_into: has_flag(given, 'w'),
        from_input,
        quiet: has_flag(given, 'q'),
        list_remaining: lists && !names,
        list_hidden: lists && names,
        show_changes: has_flag(given, 'd'),
        has_symbols: has_symbols(given),
        names: symbols,
    })
}

/// Returns the fault of the first `-D` with a relation that gives no least value, if any.
fn relation_fault(alloc: Global, given: &[ParsedArg<'_>]) -> Option<ArgumentFault>
    ensures fault { IfSome result (IsFaultIn (parsed given.now)) }
    ensures right { IfNone result (first_relation (parsed given.now) ≡ None) }
{
    match first_relation(alloc, given) {
        Ok(None) => None,
        Ok(Some(word)) => Some(ArgumentFault::BadRelation(word)),
        Err(_) => Some(ArgumentFault::OutOfMemory),
    }
}

/// Returns the plan for each text: the run over it, the passes over its output, and whether diffs
/// are shown.
fn text_plan(run: Plan, given: &[ParsedArg<'_>]) -> TextPlan
    ensures run { result.run ≡ with_unpadded (has_flag (codes "p") (parsed given.now)) run }
    ensures prunes { result.prunes ≡ has_flag (codes "p") (parsed given.now) }
    ensures squeezes { result.squeezes ≡ has_flag (codes "B") (parsed given.now) }
    ensures marks { result.marks ≡ shows_diffs (parsed given.now) }
{
    TextPlan {
        run: run.with_unpadded(has_flag(given, 'p')),
        prunes: has_flag(given, 'p'),
        squeezes: has_flag(given, 'B'),
        marks: has_flag(given, 'n') || has_flag(given, 'd'),
    }
}

/// Returns the patterns.
///
/// # Errors
/// `BadPattern` for the first one that has a fault. `OutOfMemory` if memory can't be allocated.
fn patterns_of(alloc: Global, given: &[ParsedArg<'_>]) -> Result<Vec<String>, ArgumentFault>
    ensures patterns { IfOk result (λ words.
        map string_bytes words.items ≡ patterns_in (parsed given.now)) }
    ensures right { IfOk result (λ words. first_bad (patterns_in (parsed given.now)) ≡ None) }
    ensures fault { IfErr result (IsFaultIn (parsed given.now)) }
{
    let Ok(patterns) = patterns(alloc, given) else {
        return Err(ArgumentFault::OutOfMemory);
    };
    match first_bad(patterns.as_slice()) {
        None => Ok(patterns),
        Some((text, fault)) => match text.clone() {
            Ok(word) => Err(ArgumentFault::BadPattern(word, fault)),
            Err(_) => Err(ArgumentFault::OutOfMemory),
        },
    }
}

/// Returns whether conditions are to be decided, or their names listed.
fn decides(given: &[ParsedArg<'_>]) -> bool
    ensures { result ≡ decides (parsed given.now) }
{
    has_symbols(given) || has_flag(given, 'k') || has_flag(given, 's')
}

/// Returns the task.
fn task_of(given: &[ParsedArg<'_>]) -> Task
    ensures { result ≡ task_of (parsed given.now) }
{
    if has_flag(given, 'n') {
        Task::Diff
    } else if has_flag(given, 's') {
        Task::Names
    } else {
        Task::Replace
    }
}

/// Returns the fault of the options of unifdef.
fn option_fault(alloc: Global, given: &[ParsedArg<'_>], usage: Usage) -> ArgumentFault
    ensures { IsUsageOf (unifdef_args (parsed given.now)) usage →
        IsFaultIn (parsed given.now) result }
{
    match usage {
        Usage::BadSymbol { word } => match word_at(alloc, given, word) {
            Ok(option) => ArgumentFault::BadSymbol(option),
            Err(_) => ArgumentFault::OutOfMemory,
        },
        Usage::BadMode { word } => match word_at(alloc, given, word) {
            Ok(option) => ArgumentFault::BadMode(option),
            Err(_) => ArgumentFault::OutOfMemory,
        },
        Usage::UnknownOption { letter } => ArgumentFault::UnknownOption(letter),
        Usage::MissingArgument { letter } => ArgumentFault::MissingArgument(letter),
        Usage::TooManyFiles => ArgumentFault::NoPath,
        Usage::OutOfMemory => ArgumentFault::OutOfMemory,
    }
}
