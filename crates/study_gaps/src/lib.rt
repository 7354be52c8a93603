#![tactic(auto)]

// The plan at a stop and the excess of the adjustments made: both are worked with gaps, an adjustment plus the sum that its factors
// make of what comes after it.
mod excess;
mod input;
mod later;
mod plan;
mod propose;

pub use excess::excess_at;
pub use propose::propose_at;
