// A feed, read line by line.
ghost use Rattle.feed_types.specs.Tokens.{InFeed};

use feed_types::keys::Place;

mod fields;
mod next;

// A feed, and the place of the line that is read next.
#[derive(Clone, Copy)]
pub struct Lines<'a> {
    feed: &'a [u8],
    place: Place,
    ghost inside: { InFeed feed.now place },
}
