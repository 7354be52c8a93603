#![tactic(auto)]

// Lists of commands, performed as a run of a study.
pub mod answers;
pub mod commands;
mod copying;
mod performing;
mod running;
mod sheets;

pub use running::perform;
