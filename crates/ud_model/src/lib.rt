//! The statement: unifdef's output, message and exit status for any arguments and input.
//!
//! `specs/answer/Answer.antt` defines the answer. The whole input is parsed into lines, directives
//! and nested sections. The groups that the options decide are pruned, and the rest is printed, up
//! to the first fault. Each arguments and input have exactly one answer (`law_one_answer`). `tool`
//! of the crate `unifdef` gives it: that is the contract of the program.
//!
//! These files of `specs/` are all of the statement. Read them in this order:
//!
//! 1. `text`: Bytes, Lines, Scans, Splicing, Lexemes, Scanning. A text as lines and masked lines.
//! 2. `conditions`: Table, Constants, Tokens, Expressions, Parsing, Symbols, Values, Conditions,
//!    Names. What the options decide of a condition.
//! 3. `sections`: Directives, Tree, Items, Pruning, Faults. Which lines stay, and why a text is
//!    refused.
//! 4. `answer`: SymbolArguments, CommandLine, Messages, Printing, Listing, Outcomes, Answer.
//!
//! Four laws say that this is what a user wants. C can't give a decided condition another truth
//! (`law_known_stays`). Whatever the other conditions are, the same lines are selected from the
//! output as from the input (`law_selected`). A further run changes nothing (`law_reread`). The
//! status says whether anything changed (`law_changed`). The other laws here pin one definition
//! each, and those of the crate `ud_laws` say more.
//!
//! A law is a function without a body whose contract is a theorem. `specs/laws` has what laws speak
//! of, and `specs/aids` what contracts of the code use besides. This crate also has the plain types
//! that definitions and code share, and the limits of a text.
#![tactic(auto)]

mod amount;
pub mod bytes;
mod cond;
pub mod keywords;
mod kind;
pub mod laws;
mod limits;
mod line;
mod operator;
pub mod output_laws;
mod scan;
mod settings;
mod verdict;

pub use amount::Amount;
pub use cond::Cond;
pub use kind::{CommentAt, Kind, Mode, Role, Test};
pub use limits::{MAX_DEPTH, MAX_LINE_BYTES, MAX_LINES};
pub use line::Line;
pub use operator::Operator;
pub use scan::Scan;
pub use settings::{ExitMode, Listing, Settings};
pub use verdict::Verdict;
