//! Further laws of the definitions: of the output, of answers, of options, and of simplified
//! conditions.
//!
//! A law is a function without a body whose contract is a theorem over the definitions of
//! `ud_model`. No crate uses these laws. `specs/` has the words that only they use, a file for each
//! subject. A new law belongs to the module of its subject.
#![tactic(auto)]

pub mod answer_laws;
pub mod answer_option_laws;
pub mod option_laws;
pub mod output_laws;
pub mod residual_laws;
