// A line read from a table of whole numbers.
mod entries;
mod open;

use super::reading::Sizes;

// The numbers as they were given, in whatever lends them as a slice: N, the numbers of states and inputs, then for each stop before N
// the rows of F but the last and the upper half of G, then the upper half of G at N.
#[derive(Drop)]
pub struct Table<S = Vec<i64>> {
    sizes: Sizes,
    numbers: S,
}
