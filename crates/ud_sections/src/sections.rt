//! Decides each line by the sections open before it: `machine.Machine`.
//!
//! `classify_line` decides the condition of the line's directive. `check` then returns the action
//! for a directive of that role, or its fault, by the innermost open section. The action is the
//! verdict and the change of the open sections. `open_section` has the record of an open
//! section, and `section_state` tracks its groups. Callers get a `step`.
//!
//! A new role of directives needs an action in `open_section`.

mod check;
mod classify_line;
mod fault;
mod machine;
mod open_section;
mod section_state;
mod step;
mod text_policy;

pub use fault::SectionFault;
pub use machine::Machine;
pub use step::{Span, Step};
pub use text_policy::TextPolicy;
