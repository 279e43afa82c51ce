// Arrows between nodes. In a bundle each leads from a transmission to the reception that got its message.
#![tactic(auto)]

pub mod arrow;
mod same;
