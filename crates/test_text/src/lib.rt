//! Tests of ud_text: lines from chunks, scans, marks, and skipping text lines.
#![tactic(auto)]

#[cfg(test)]
mod lines;
#[cfg(test)]
mod marks;
#[cfg(test)]
mod scans;
#[cfg(test)]
mod skipping;
