// Assumptions on keys, nonces and channels: their kinds, and when two of them are one.
#![tactic(auto)]

pub mod assumption;
mod kinds;
mod same;
