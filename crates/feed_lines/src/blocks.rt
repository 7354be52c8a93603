// The header of a feed, and the blocks of six lines that follow it.
ghost use Rattle.feed_types.specs.Limits.{GoodSizes};

use crate::lines::Lines;
use feed_types::types::Sizes;

mod block;
mod header;

pub use block::read_block;
pub use header::read_header;

// The blocks of a feed, by the sizes in its header, and the place of the block that is read next.
#[derive(Drop)]
pub struct Blocks<'a> {
    lines: Lines<'a>,
    sizes: Sizes,
    ghost good: { GoodSizes sizes },
}
