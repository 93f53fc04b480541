//! unifdef-tree(1): unifdef over the files of a tree, in place.
//!
//! `parse_arguments` parses a command line. `find_files` walks over the directories, and `run_tree`
//! replaces each file with `ud_replace`, shows what would change, or lists names. Both work on a
//! `Tree`; `Disk` is the real one.
#![tactic(auto)]

mod arguments;
mod counts;
mod disk;
mod file_diff;
mod file_result;
mod find_files;
mod help;
mod job;
mod last_lines;
mod laws;
mod list_file;
mod other_files;
mod paths;
mod patterns;
mod process_files;
mod replace_file;
mod report;
mod run;
mod run_file;
mod send;
mod show_file;
mod tree;
mod walk;

pub use arguments::{ArgumentFault, Arguments, Request, Task, parse_arguments};
pub use disk::{Changes, Disk, Facts, Looks};
pub use help::print_help;
pub use job::Job;
pub use laws::{law_run_old_or_new, law_run_reads, law_run_renames, law_run_shows, law_run_status};
pub use patterns::faults::PatternFault;
pub use report::{report_argument_fault, report_bad_argument, report_line};
pub use run::run_tree;
pub use tree::Tree;
pub use ud_replace::{FileId, Lookup, Node, NodeKind};
pub use unifdef::EXIT_TROUBLE;
