//! Tests of ud_cond, ud_sections and ud_passes: symbols, conditions, directives, machines, printers
//! and pruned texts.
#![tactic(auto)]

#[cfg(test)]
mod conditions;
#[cfg(test)]
mod directives;
#[cfg(test)]
mod machines;
#[cfg(test)]
mod printers;
mod printing;
#[cfg(test)]
mod pruning;
#[cfg(test)]
mod residuals;
#[cfg(test)]
mod stepping;
#[cfg(test)]
mod symbols;
