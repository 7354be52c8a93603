#![tactic(auto)]

// What a feed is: its sizes, trains, labels, keys and refusals, and in specs/ its one text and what reading it means.
pub mod faults;
pub mod keys;
pub mod labels;
pub mod types;
