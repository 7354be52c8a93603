// The header of a feed.
ghost use Rattle.std.specs.Prelude.{◌≡◌, ◌≤◌, List, length, MatchResult};
ghost use Rattle.feed_types.specs.declared.types.Train.{Train};
ghost use Rattle.feed_types.specs.declared.types.Sizes.{Sizes};
ghost use Rattle.feed_types.specs.Blocks.{ReadSize, BadSize, ReadHeader};
ghost use Rattle.feed_lines.specs.Cursor.{left};
ghost use Rattle.feed_types.specs.Reading.{Refused};

use super::Blocks;
use crate::MOST_BYTES;
use crate::lines::Lines;
use feed_types::faults::FeedFault;
use feed_types::keys::{Key, Place};
use feed_types::types::Sizes;

// The size on the next line of a header, which is to be the book's, if it has sizes.
fn size(lines: &mut Lines, key: Key, most: u8, held: Option<u8>) -> Result<u8, FeedFault>
    ensures { MatchResult result
        (λ n. (lines.new.feed.now ≡ lines.old.feed.now) × ReadSize lines.old.feed.now lines.old.place key most held n lines.new.place)
        (BadSize key most held (left lines.old) lines.old.place.line) }
{
    let line = lines.line();
    // at most `most`, so it fits: a TryFrom would add a refusal that cannot come
    let n = lines.count(key, 1, u16::from(most))? as u8;
    if held.is_some_and(|m| m != n) {
        return Err(FeedFault::OtherSize { line });
    }
    Ok(n)
}

impl<'a> Blocks<'a> {
    // A feed whose header is read, and whose sizes are the book's, if it has any.
    pub fn new(feed: &'a [u8], held: Option<Sizes>) -> Result<Blocks<'a>, FeedFault>
        ensures { MatchResult result (λ b. (length feed.now ≤ 8192) × (b.lines.feed.now ≡ feed.now) × ReadHeader feed.now held b.sizes b.lines.place) (λ e. (ts : List Train) → Refused feed.now (record { sizes = held; trains = ts }) e) }
    {
        if feed.len() > MOST_BYTES {
            return Err(FeedFault::TooLong);
        }
        let mut lines = Lines::new(feed);
        let stops = size(&mut lines, Key::Stops, 24, held.map(|s| s.stops))?;
        let states = size(&mut lines, Key::States, 4, held.map(|s| s.states))?;
        let inputs = size(&mut lines, Key::Inputs, 3, held.map(|s| s.inputs))?;
        let sizes = Sizes {
            stops,
            states,
            inputs,
        };
        Ok(Blocks { lines, sizes })
    }

    // The sizes in the header.
    pub fn sizes(&self) -> Sizes
        ensures { result ≡ self.now.sizes }
    {
        self.sizes
    }
}

// The sizes of the header that a feed begins with, and the place of its first block.
pub fn read_header(feed: &[u8], held: Option<Sizes>) -> Result<(Sizes, Place), FeedFault>
    ensures { MatchResult result (λ p. ReadHeader feed.now held p.0 p.1) (λ e. (ts : List Train) → Refused feed.now (record { sizes = held; trains = ts }) e) }
{
    let blocks = Blocks::new(feed, held)?;
    Ok((blocks.sizes, blocks.lines.place()))
}
