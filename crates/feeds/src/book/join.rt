// A new book, what it holds, and one train joined to it.
ghost use Rattle.std.specs.Prelude.{◌≡◌, ℕ, [], IfOk, None, MatchOption};
ghost use Rattle.feeds.specs.Held.{held};
ghost use Rattle.feed_types.specs.Joining.{Stands, Absent, StandsNamed};

use super::{Book, MOST_TRAINS};
use feed_types::types::{Sizes, Train};
use std::alloc::{AllocError, Global};

impl Book {
    // A book without trains, or none where there is no memory for 64 of them.
    pub fn new(heap: Global) -> Result<Book, AllocError>
        ensures { IfOk result (λ b. held b ≡ record { sizes = None; trains = [] }) }
    {
        let trains = Vec::with_capacity(heap, MOST_TRAINS)?;
        Ok(Book {
            sizes: None,
            trains,
        })
    }

    // The trains, by slot.
    pub fn trains(&self) -> &[Train]
        ensures { result.now ≡ (held self.now).trains }
    {
        self.trains.as_slice()
    }

    // The sizes, if the book has a train.
    pub fn sizes(&self) -> Option<Sizes>
        ensures { result ≡ (held self.now).sizes }
    {
        self.sizes
    }

    // The slot where this train stands, whatever its values there.
    pub(super) fn slot_of(&self, train: &Train) -> Option<usize>
        ensures { MatchOption result (Absent (held self.now).trains train.now) (λ k. Stands (held self.now).trains k train.now) }
    {
        self.trains
            .iter()
            .position(|t| t.stop == train.stop && t.label == train.label)
    }

    // The slot where a train of this stop and label stands. No train has a label that breaks the rules of labels.
    pub fn find(&self, stop: usize, label: &[u8]) -> Option<usize>
        ensures { MatchOption result ((k : ℕ) → StandsNamed (held self.now).trains k stop label.now → ⊥) (λ k. StandsNamed (held self.now).trains k stop label.now) }
    {
        self.trains
            .iter()
            .position(|t| usize::from(t.stop) == stop && t.label.text() == label)
    }
}
