// The book of trains that feeds are joined into.
ghost use Rattle.std.specs.Prelude.{◌≡◌, ◌≤◌, is_some, vec_len, vec_capacity, nat_lt};
ghost use Rattle.feed_types.specs.Books.{Keeps, Distinct};

use feed_types::types::{Sizes, Train};

mod join;
mod read;

// The most trains of a book.
pub const MOST_TRAINS: usize = 64;

// At most 64 trains, each once, by slots from 0. It has sizes from its first train on, and room for all 64 from the start,
// so that reading a feed never wants memory.
#[derive(Drop)]
pub struct Book {
    sizes: Option<Sizes>,
    trains: Vec<Train>,
    ghost few: { vec_len trains ≤ 64 },
    ghost room: { 64 ≤ vec_capacity trains },
    ghost distinct: { Distinct trains.items },
    ghost sized: { is_some sizes ≡ nat_lt 0 (vec_len trains) },
    ghost kept: { ∥ Keeps sizes trains.items ∥₁ },
}
