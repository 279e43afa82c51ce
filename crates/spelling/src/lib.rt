// What the programs share: how much they read of their input, and messages, the calls that enter them and refusals in
// words.
#![tactic(auto)]

pub mod entered;
pub mod entering;
pub mod refused;
pub mod source;
pub mod spelled;
#[cfg(test)]
mod tests;
