#![tactic(auto)]

// What a study speaks of: its sizes and stops, its refusals, and in specs/ what each of its calls asks, answers and leaves.
pub mod faults;
mod operations;
mod reading;
pub mod sizes;
pub mod stops;

pub use operations::{add_terms, times};
pub use reading::{ZERO, number_at, one, zero};
