//! The sections of a text: from the scan of a line to its output.
//!
//! `directive` parses the directive of a scanned line. A `Machine` decides each line by the open
//! sections, and a printer (`Show`) returns what to print for it. A `Lister` lists the names of
//! conditions instead.
//!
//! ud_model has the definitions; `answer.Printing` defines the output.
//! `specs/sections/StepViews.antt` relates a line and its step to a line of the definitions.
#![tactic(auto)]

mod directives;
mod printing;
mod sections;

pub use directives::parse_directive::directive;
pub use directives::{Cut, Directive};
pub use printing::{
    Blank, Complement, Delete, LineOutput, Lister, Pieces, Printer, Renumber, Show,
};
pub use sections::{Machine, SectionFault, Span, Step, TextPolicy};
