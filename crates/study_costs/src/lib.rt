#![tactic(auto)]

// The trail of a study, from the start on, and the costs along it.
mod begin;
mod confirm;
mod forms;
mod lateness;
mod lists;
mod paid;
mod rest;
mod rows;

pub use begin::begin_trail;
pub use confirm::confirm_at;
pub use paid::paid_at;
pub use rest::rest_at;
