// A block of a feed.
ghost use Rattle.std.specs.Prelude.{◌≡◌, ◌<◌, length, drop, MatchOption, MatchResult};
ghost use Rattle.feed_types.specs.Blocks.{BadBlock, ReadBlock};
ghost use Rattle.feed_types.specs.Limits.{GoodSizes};
ghost use Rattle.feed_types.specs.Tokens.{InFeed};
ghost use Rattle.feed_lines.specs.Cursor.{left, NextBlock};

use super::Blocks;
use crate::lines::Lines;
use feed_types::faults::FeedFault;
use feed_types::keys::{Key, Place};
use feed_types::types::{Sizes, Train};

impl<'a> Blocks<'a> {
    // The train of the block that begins here. The blocks stay as they were where it is refused.
    fn block(&mut self) -> Result<Train, FeedFault>
        ensures { MatchResult result
            (λ t. (self.new.lines.feed.now ≡ self.old.lines.feed.now) × (self.new.sizes ≡ self.old.sizes) × ReadBlock self.old.lines.feed.now self.old.lines.place self.old.sizes t self.new.lines.place)
            (λ e. (self.new ≡ self.old) × BadBlock self.old.sizes (left self.old.lines) self.old.lines.place.line e) }
    {
        let last = u16::from(self.sizes.stops);
        // a copy, which is kept only where the whole block is read
        let mut lines = self.lines;
        let label = lines.label()?;
        let stop = lines.count(Key::Stop, 0, last)?;
        let weight = lines.count(Key::Weight, 1, 999)?;
        let late = lines.factors::<4>(Key::Late, self.sizes.states)?;
        let line = lines.line();
        let moves = lines.factors::<3>(Key::Move, self.sizes.inputs)?;
        if stop == last && moves != [0; 3] {
            return Err(FeedFault::BadValue { line });
        }
        let aim = lines.integer(Key::Aim, 999)?;
        self.lines = lines;
        Ok(Train {
            // at most the last stop, so it fits: a TryFrom would add a refusal that cannot come
            stop: stop as u8,
            label,
            weight,
            late,
            moves,
            aim,
        })
    }

    // The train of the next block, if there is one, and the number of the block's last line.
    pub fn next_block(&mut self) -> Result<Option<(Train, usize)>, FeedFault>
        ensures { MatchResult result
            (λ o. MatchOption o ((self.old.lines.place.at ≡ length self.old.lines.feed.now) × (self.new ≡ self.old)) (λ x. NextBlock self.old x.0 x.1 self.new))
            (λ e. (self.old.lines.place.at < length self.old.lines.feed.now) × (self.new ≡ self.old) × BadBlock self.old.sizes (left self.old.lines) self.old.lines.place.line e) }
    {
        if self.lines.is_done() {
            return Ok(None);
        }
        let train = self.block()?;
        Ok(Some((train, self.lines.line() - 1)))
    }
}

// The train of the block at a place of a feed, and the place after it, by sizes that need not be those of the feed's header.
pub fn read_block(feed: &[u8], from: Place, sizes: Sizes) -> Result<(Train, Place), FeedFault>
    requires place { InFeed feed.now from }
    requires sizes { GoodSizes sizes }
    ensures { MatchResult result (λ p. ReadBlock feed.now from sizes p.0 p.1) (BadBlock sizes (drop from.at feed.now) from.line) }
{
    let lines = Lines::at(feed, from);
    let mut blocks = Blocks { lines, sizes };
    let train = blocks.block()?;
    Ok((train, blocks.lines.place()))
}
