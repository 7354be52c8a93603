#![tactic(auto)]

// A layer over any line that adds to a stop's cost what each train of a book weighs there.
mod entries;
pub mod faults;
pub mod layer;
mod laying;
mod weights;

pub use laying::{fits, lay};

#[cfg(test)]
mod tests;
