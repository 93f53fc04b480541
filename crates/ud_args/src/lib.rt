//! The command lines of unifdef(1) and unifdef-tree(1): their options and operands, and the symbols
//! that the options define or undefine (POSIX XBD 12.2).
//!
//! `ud_model.specs.answer.CommandLine` defines what the arguments of unifdef(1) mean, and when they
//! are faulty. `specs/CommandLines.antt` defines what words give, for both programs.
//!
//! `command_line` reads the words, one option or operand after another, by the letters of
//! `programs`. `options` returns the setting of each, or its fault, and `parse` adds the setting to
//! the plan of a run. `tree_words` and `least` are for unifdef-tree alone.
#![tactic(auto)]

mod command_line;
mod least;
mod options;
mod parse;
mod plans;
mod programs;
mod tree_words;
mod usage;

pub use command_line::ParsedArg;
pub use parse::{display_name, input_of, plan};
pub use plans::Plan;
pub use tree_words::{
    first_relation, given_by, has_flag, has_symbols, paths, patterns, plan_among, symbol_names,
    word_at,
};
pub use usage::Usage;
