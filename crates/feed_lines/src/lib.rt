#![tactic(auto)]

// The lines of a feed, read as values, a header and blocks.
ghost use Rattle.std.specs.Prelude.{◌≡◌, length};
ghost use Rattle.feed_types.specs.Text.{Feed, Good, text};

pub mod blocks;
mod lines;
mod tokens;
mod values;

// The longest feed.
pub const MOST_BYTES: usize = 8192;

// How many blocks a feed has.
pub fn blocks_in(feed: &[u8]) -> usize
    ensures { (f : Feed) → Good f → feed.now ≡ text f → result ≡ length f.trains }
{
    let lines = feed.iter().filter(|b| **b == b'\n').count();
    lines.saturating_sub(3) / 6
}
