//! Uses of the library, one function each, for docs/LIBRARY.md and for the `# Examples` of the
//! library's functions.
//!
//! The file `stdout` beside `src` has the expected output, written by hand after unifdef(1). To add
//! an example, write a function that prints its result, call it in `main`, and append its expected
//! lines to `stdout`.
#![tactic(auto)]

mod by_hand;
mod conditions;
mod engines;
mod lines;
mod outline;
mod plans;
mod whole;

use anyhow::Result;

fn main(rt: HostRuntime) -> Result<()> {
    let alloc = rt.alloc();
    whole::strip_text(&rt, alloc)?;
    by_hand::print_outline(&rt, alloc)?;
    conditions::print_conditions(&rt, alloc)?;
    plans::parse_arguments(&rt, alloc)?;
    plans::reject_argument(&rt, alloc)?;
    plans::run_plan(&rt, alloc)?;
    engines::print_blanked(&rt, alloc)?;
    engines::feed_chunks(&rt, alloc)?;
    engines::finish_text(&rt, alloc)?;
    conditions::decide_condition(&rt, alloc)?;
    conditions::list_names(&rt)?;
    lines::scan_line(&rt)?;
    lines::step_line(&rt, alloc)
}
