//! Evaluates the expressions of `#if` and `#elif` (C11 6.10.1).
//!
//! `reader` reads a text through `tokens`, with the two stacks of `stacks`. It builds no tree and
//! allocates nothing. Its `keeper.Keeper` determines what it keeps of each part.
//!
//! `evaluation` keeps the value of each part, a `values.Value`; `constants` evaluates constants,
//! and `operators` has the precedence of each operator. `residuals` keeps a `parts.Part`, and so
//! finds which tokens are left without the operands that the table decides.
//!
//! A new operator needs a token, a precedence, and its value in `values`.

mod constants;
pub(crate) mod evaluation;
mod keeper;
mod operators;
mod packed_value;
mod parts;
mod reader;
pub(crate) mod residuals;
mod stacks;
pub(crate) mod tokens;
pub(crate) mod values;
