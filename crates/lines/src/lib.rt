#![tactic(auto)]

// Lines of stops: one contract for every line, and the lines that are supplied.
pub mod faults;
pub mod kinds;
pub mod line;
mod reading;
mod refusals;
pub mod steady;
pub mod table;
#[cfg(test)]
mod tests;
pub mod worked;
