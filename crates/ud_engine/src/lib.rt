//! unifdef(1) over a text that comes in chunks.
//!
//! `run` feeds the chunks of a reader to an `Engine`. The engine cuts them into lines. A
//! `LineDecider` decides each line by a scanner and a machine, and a `LineProcessor` prints it
//! through `Output`. `Feeding.EngineRepresents` relates an engine to the text it was fed, and to
//! the output for that text.
#![tactic(auto)]

mod engine;
mod fault;
mod line_decider;
mod line_processor;
mod listing;
mod output;
mod output_buffer;
mod plan_source;
mod pump;

pub use engine::{Engine, EngineOf};
pub use fault::RunFault;
pub use plan_source::PlanSource;
pub use pump::run;
pub use ud_io::{Watched, write_all};
