//! Hostile arguments and texts from a seed, on which the tool is compared with the reference.
//!
//! `case_of` makes the case of a seed: arguments, and a text dense in what hurts. That is splices,
//! comments and quotes that are cut, carriage returns and NUL bytes, and cut keywords; sections
//! that nest up to the limit and past it, plain sections, lines at the limit, and long expressions.
//! `agree` feeds the case to the tool in chunks of random sizes. `smallest` shrinks a case that the
//! tool and the reference answer differently. Contracts state here what safety needs, and nothing
//! of the meaning.
#![tactic(auto)]

mod args;
mod case;
mod chunks;
mod comparing;
mod expressions;
mod lines;
mod random;
mod sections;
mod shrinking;
mod writer;

pub use case::{Case, case_of};
pub use chunks::Chunks;
pub use comparing::agree;
pub use random::Random;
pub use shrinking::smallest;
