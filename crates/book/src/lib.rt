// A book: what stands of a run, and the calls that put it there and take it out.
#![tactic(auto)]

pub mod book;
mod calls;
mod names;
mod reading;
mod start;
