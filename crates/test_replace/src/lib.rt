//! Tests of `replace` over a directory in memory, whose calls fail as each case asks.
#![tactic(auto)]

#[cfg(test)]
mod fake;
#[cfg(test)]
mod replacing;
