//! The messages of unifdef(1), and the exit status.
//!
//! `report_usage` reports a fault of the arguments. `final_result` is the result of a run after the
//! flush of its output, whether or not that failed; `report_result` reports its fault, if any, and
//! returns the exit status. `status_by` is the status without a fault. The texts of the messages
//! are defined in ud_model, specs/answer/Messages.antt and CommandLine.antt.

mod exit;
mod fault_messages;
mod usage_messages;

pub use exit::{EXIT_TROUBLE, final_result, report_result, status_by};
pub use usage_messages::report_usage;
