#![tactic(auto)]

// The study of a line: it is weighed, and then run from stop to stop. Its states are moved from call to call, so that a call out of order
// does not compile.
mod asking;
mod ending;
mod moving;
mod starting;
pub mod states;
pub mod work;
