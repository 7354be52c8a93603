// A feed read into a book.
ghost use Rattle.std.specs.Prelude.{◌≡◌, length, take, Some, MatchResult, OnOk};
ghost use Rattle.feed_types.specs.Books.{sizes_for};
ghost use Rattle.feeds.specs.Held.{held};
ghost use Rattle.feed_types.specs.History.{OneText, OnlyAnswer, KeepsSlots, AgainNothing, EveryHistory};
ghost use Rattle.feed_types.specs.Joining.{Joins, NotJoined};
ghost use Rattle.feed_types.specs.Limits.{GoodSizes, GoodTrain};
ghost use Rattle.feed_types.specs.Reading.{Agreed, Reading};
ghost use Rattle.feed_types.specs.Progress.{JoinedTo, Stuck};
ghost use Rattle.feed_types.specs.declared.keys.Place.{Place};

use super::{Book, MOST_TRAINS};
use feed_lines::blocks::Blocks;
use feed_types::faults::FeedFault;
use feed_types::types::{Sizes, Train};

impl Book {
    // Joins one train of a feed of these sizes, whose block ends with this line.
    fn join(&mut self, train: Train, sizes: Sizes, line: usize) -> Result<(), FeedFault>
        requires good { GoodSizes sizes × GoodTrain sizes train }
        requires fits { Agreed (held self.old) sizes }
        ensures { MatchResult result
            (λ _. Joins (held self.old).trains train (held self.new).trains × ((held self.new).sizes ≡ Some sizes))
            (λ e. (held self.new ≡ held self.old) × NotJoined (held self.old).trains train line e) }
    {
        match self.slot_of(&train) {
            Some(slot) => {
                if self.trains[slot] == train {
                    Ok(())
                } else {
                    Err(FeedFault::OtherValues { line, slot })
                }
            }
            None => {
                if self.trains.len() == MOST_TRAINS {
                    return Err(FeedFault::BookFull { line });
                }
                self.sizes = Some(sizes);
                self.trains.push_reserved(train);
                Ok(())
            }
        }
    }

    // Joins the trains of the blocks that are left, up to the first block that is refused.
    fn join_blocks(&mut self, mut rest: Blocks) -> Result<(), FeedFault>
        requires { Agreed (held self.old) rest.sizes }
        ensures { let feed = rest.entry.lines.feed.now in let from = rest.entry.lines.place in let sizes = rest.entry.sizes in MatchResult result
            (λ _. (q : Place) × JoinedTo feed sizes from (held self.old) (held self.new) q × (q.at ≡ length feed))
            (λ e. (q : Place) × JoinedTo feed sizes from (held self.old) (held self.new) q × Stuck feed sizes (held self.new) q e) }
    {
        while let Some((train, line)) = rest.next_block()? {
            self.join(train, rest.sizes(), line)?;
        }
        Ok(())
    }

    // Forgets the trains from slot `count` on.
    fn keep_first(&mut self, count: usize)
        ensures trains { (held self.new).trains ≡ take count (held self.old).trains }
        ensures sizes { (held self.new).sizes ≡ sizes_for (held self.old).sizes (held self.new).trains }
    {
        self.trains.truncate(count);
        if self.trains.is_empty() {
            self.sizes = None;
        }
    }

    // Reads a feed into the book, and tells how many of its trains were new. A refused feed leaves the book as it was.
    pub fn read(&mut self, feed: &[u8]) -> Result<usize, FeedFault>
        ensures answer { Reading feed.now (held self.old) result (held self.new) }
        ensures only { OnlyAnswer feed.now (held self.old) result (held self.new) }
        ensures slots { KeepsSlots (held self.old) (held self.new) }
        ensures again { OnOk result (AgainNothing feed.now (held self.new)) }
        ensures history { EveryHistory }
        ensures text { OneText }
    {
        self.take_in(feed)
    }

    fn take_in(&mut self, feed: &[u8]) -> Result<usize, FeedFault>
        ensures { Reading feed.now (held self.old) result (held self.new) }
    {
        let rest = Blocks::new(feed, self.sizes)?;
        let before = self.trains.len();
        match self.join_blocks(rest) {
            Ok(()) => Ok(self.trains.len() - before),
            Err(fault) => {
                self.keep_first(before);
                Err(fault)
            }
        }
    }
}
