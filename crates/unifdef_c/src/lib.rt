//! unifdef(1) for C, and for anything that calls C.
//!
//! Each exported function is declared and described in lib/unifdef.h. It takes numbers and slices
//! (a pointer and a length), and writes only to what it is passed. Only a `Handle` keeps anything
//! between calls: a `Stream`, for a text that comes in chunks.
#![tactic(auto)]

mod args;
mod decide;
mod fault;
mod hand_out;
mod handle;
mod laws;
mod pruning;
mod raw_box;
mod stream;
mod stream_calls;
mod text;
mod version;
