//! The table of symbols, and the conditions it decides.
//!
//! `ud_model.specs.conditions.Table` defines the entries that a list of calls gives names, and
//! `ud_model.specs.conditions.Conditions` the decision on a directive.
//! `specs.symbols.SymbolTable` defines what a `Symbols` represents and how its rows are sorted,
//! `specs.symbols.NameFilters` which names are known to be unlisted without a search,
//! `specs.expressions.Evaluation` the value that `evaluation` has of an expression, and
//! `specs.expressions.ResidualReading` what `residuals` has of one. `specs.expressions.Stacks`
//! defines which operators are pending meanwhile, and `specs.expressions.Keepings` what a reader
//! keeps of the parts.
#![tactic(auto)]

mod conditions;
mod expressions;
mod list_names;
mod symbols;
mod token_flags;

pub use conditions::{Answer, Rules, condition};
pub use expressions::residuals::residual;
pub use expressions::tokens::{NextToken, Token, next_token};
pub use expressions::values::is_number;
pub use list_names::names;
pub use list_names::names_iter::Names;
pub use symbols::{Entry, SymbolFault, SymbolRow, Symbols};
pub use token_flags::TokenFlags;
