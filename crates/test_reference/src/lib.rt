//! unifdef(1) over a whole text in memory: the plain program with which tests compare the tool.
//!
//! `reading` cuts the text into lines and nests them into the tree of its sections. `pruning` gives
//! each line its mark, by the table of verdicts over each section as a whole. `printing` prints the
//! output, or lists the names. Nothing is decided before the text is read. Contracts state here
//! what safety needs, and nothing of the meaning.
#![tactic(auto)]

mod answering;
mod classify_line;
mod cutting;
mod messages;
mod obfuscated;
mod printing;
mod pruning;
mod reading;
mod tree;

pub use answering::{Answer, answer_to};
