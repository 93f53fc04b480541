//! Tests of the parts of the tool above the lines: plans of arguments, the engine chunk by chunk,
//! runs, streams that are called once a call, and messages.
#![tactic(auto)]

#[cfg(test)]
mod engine;
#[cfg(test)]
mod feeding;
#[cfg(test)]
mod messages;
#[cfg(test)]
mod plans;
#[cfg(test)]
mod running;
#[cfg(test)]
mod watching;
