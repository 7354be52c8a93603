#![tactic(auto)]

// The book of trains that operator feeds are joined into.
pub mod book;

// The longest feed.
pub use feed_lines::MOST_BYTES;
