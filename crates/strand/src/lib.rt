// Strands: events, nodes and their codes, the strands of a book, and the trace of a strand.
#![tactic(auto)]

pub mod event;
mod lookup;
pub mod node;
pub mod numbers;
mod opening;
mod origin;
pub mod strand;
#[cfg(test)]
mod tests;
pub mod trace;
