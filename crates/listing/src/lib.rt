// Lists of entries in the order in which they came, at most a given number of them.
#![tactic(auto)]

mod enter;
mod listing;
mod lookup;
mod same;
#[cfg(test)]
mod tests;

pub use crate::listing::Listing;
pub use crate::same::Same;
