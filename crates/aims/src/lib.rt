#![tactic(auto)]

// A layer over any line by which the cost is taken at the lateness less an aim.
mod entries;
pub mod faults;
pub mod layer;
mod setting;
#[cfg(test)]
mod tests;
